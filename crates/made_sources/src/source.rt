//! Sources in memory whose reads never fail and never wait.

ghost use Rattle.std.specs.Prelude.{◌≡◌, []};
ghost use Rattle.mem_edges.specs.MemSource.{acts_left};

use mem_edges::{MemSource, SourceScript};
use pipe_edges::{ByteSource, ReadEnd};
use pipe_types::bytes::Bytes;
use std::alloc::Global;

/// Bytes in memory, which are given as they are asked for.
#[derive(Drop)]
pub struct MadeSource {
    source: MemSource,
    ghost no_act: { acts_left source ≡ [] },
}

impl MadeSource {
    /// These bytes, of which none was read.
    pub fn new(alloc: Global, bytes: Bytes) -> MadeSource
        ensures taken { ⟦<MadeSource as ByteSource>⟧.taken result ≡ [] }
        ensures left { ⟦<MadeSource as ByteSource>⟧.left result ≡ bytes }
    {
        MadeSource {
            source: MemSource::new(bytes, SourceScript::from_vec(Vec::new(alloc))),
        }
    }
}

/// Its counts of faults and waits stay 0, whatever is read.
impl ByteSource for MadeSource {
    ghost use Rattle.std.specs.Prelude.{true};
    ghost use Rattle.mem_edges.specs.MemSource.{taken_of, left_of};

    ghost told = { λ _. true };

    ghost taken = { λ m. taken_of m.source };

    ghost left = { λ m. left_of m.source };

    ghost faults = { λ _. 0 };

    ghost waits = { λ _. 0 };

    fn read(&mut self, piece: &mut [u8]) -> ReadEnd {
        match self.source.read(piece) {
            ReadEnd::Got(count) => ReadEnd::Got(count),
            ReadEnd::End => ReadEnd::End,
            ReadEnd::Failed | ReadEnd::Empty => unreachable!(),
        }
    }

    fn at(&mut self, now: u64) {
        let _ = now;
    }
}
