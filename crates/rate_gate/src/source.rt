//! A source in its gate.

ghost use Rattle.std.specs.Prelude.{◌≡◌, ◌<◌, ◌≤◌, ℕ, List, [], None, Some, length, IsTrue, IfOk, IfErr, option_map};
ghost use Rattle.pipe_edges.specs.{Reads.{ReadsBytes, ReadIsCounted, ReadHasCause}, Paces.{PaceSeen, ReadIsPaced, told_at}};
ghost use Rattle.rate_gate.specs.Gate.{pace_of, moment_of, given_of};

use crate::front::Front;
use crate::gate::Gate;
use pipe_edges::{ByteSource, ReadEnd};
use std::alloc::{AllocError, Global};
use std::marker::Model;

/// A source in its gate. Without a gate it is the source.
#[derive(Drop)]
pub struct GatedSource<B: ByteSource> {
    inner: B,
    front: Option<Front>,
}

impl<B: ByteSource> Model for GatedSource<B> {
    ghost use Rattle.std.specs.Prelude.{option_map};
    ghost use Rattle.rate_gate.specs.Front.{front_seen};
    ghost use Rattle.rate_gate.specs.Gated.{GatedSeen, HoldsLastBy};

    ghost Value = { GatedSeen B };

    ghost view = { λ s. record { inner = s.inner; front = option_map front_seen s.front } };

    ghost invariant = { λ s. HoldsLastBy (option_map front_seen s.front) (B.told s.inner) (B.taken s.inner) };
}

impl<B: ByteSource> GatedSource<B> {
    ghost use Rattle.rate_gate.specs.Fresh.{front_of};
    ghost use Rattle.rate_gate.specs.Gated.{HoldsLastBy};

    /// The source without a gate.
    pub fn plain(inner: B) -> GatedSource<B>
        ensures inner { result.inner ≡ inner }
        ensures front { result.front ≡ None }
    {
        GatedSource { inner, front: None }
    }

    /// The source in this gate. For want of memory it comes back as it was. With a gate it takes room for 8,192 bytes here,
    /// and later none.
    pub fn new(
        alloc: Global,
        inner: B,
        gate: Option<Gate>,
    ) -> Result<GatedSource<B>, (B, AllocError)>
        ensures inner { IfOk result (λ s. s.inner ≡ inner) }
        ensures front { IfOk result (λ s. s.front ≡ option_map front_of gate) }
        ensures err { IfErr result (λ e. e.0 ≡ inner) }
    {
        let Some(gate) = gate else {
            return Ok(GatedSource::plain(inner));
        };
        match Front::new(alloc, gate) {
            Ok(front) => Ok(GatedSource {
                inner,
                front: Some(front),
            }),
            Err(error) => Err((inner, error)),
        }
    }

    /// The source, with all that it counted. Bytes that were read and not given are let go.
    pub fn into_inner(self) -> B
        ensures inner { result ≡ self.inner }
        ensures holds { HoldsLastBy self.front (B.told self.inner) (B.taken self.inner) }
    {
        let GatedSource { inner, front } = self;
        drop(front);
        inner
    }
}

impl<B: ByteSource> ByteSource for GatedSource<B> {
    ghost use Rattle.rate_gate.specs.Gated.{taken_by, left_by, waits_by, paced_by};

    ghost told = { λ s. B.told s.inner };

    ghost taken = { λ s. taken_by s.front (B.taken s.inner) };

    ghost left = { λ s. left_by s.front (B.left s.inner) };

    ghost faults = { λ s. B.faults s.inner };

    ghost waits = { λ s. waits_by s.front (B.waits s.inner) };

    ghost paced = { λ s. paced_by s.front (B.waits s.inner) (B.paced s.inner) };

    fn read(&mut self, piece: &mut [u8]) -> ReadEnd {
        match &mut self.front {
            None => self.inner.read(piece),
            Some(front) => front.read(&mut self.inner, piece),
        }
    }

    fn at(&mut self, now: u64) {
        match &mut self.front {
            None => self.inner.at(now),
            Some(front) => front.at(now),
        }
    }
}
