//! Texts that stand one behind another, so that each costs its bytes and four more.

ghost use Rattle.std.specs.Prelude.{◌≡◌, [], ◌∷◌, ◌++◌, ◌<◌, length, slice_get, Some, OnOk, OnErr};
ghost use Rattle.pipe_journal.specs.{Cuts.{start_at, cut, AreEnds}, Grown.{Extends}};

use std::alloc::{AllocError, Global};
use std::marker::Model;

/// Texts in the order in which they came, of less than 2^32 bytes in all.
#[derive(Drop)]
pub struct Shelf {
    bytes: Vec<u8>,
    // Where each text ends.
    ends: Vec<u32>,
}

impl Model for Shelf {
    ghost use Rattle.std.specs.Prelude.{List, ℕ};
    ghost use Rattle.pipe_journal.specs.Cuts.{cut, AreEnds};

    ghost Value = { List (List ℕ) };

    ghost view = { λ s. cut 0 s.bytes.items s.ends.items };

    ghost invariant = { λ s. AreEnds 0 s.bytes.items s.ends.items };
}

/// Where the part at that place begins.
#[tactic(auto, using(crate::proofs::Cutting::start_read, std::proofs::lemmas::Grind::common_steps))]
fn start_of(ends: &[u32], at: usize) -> usize
    requires { at < length ends.now }
    ensures { result ≡ start_at 0 ends.now at }
{
    if at == 0 { 0 } else { ends[at - 1] as usize }
}

/// The part of the bytes at that place from 0.
fn part<'a>(bytes: &'a [u8], ends: &[u32], at: usize) -> &'a [u8]
    requires ends { AreEnds 0 bytes.now ends.now }
    requires within { at < length ends.now }
    ensures { slice_get (cut 0 bytes.now ends.now) at ≡ Some result.now }
{
    let start = start_of(ends, at);
    let end = ends[at] as usize;
    &bytes[start..end]
}

impl Shelf {
    /// No text. What it takes later comes from `alloc`.
    pub(crate) fn new(alloc: Global) -> Self
        ensures { result ≡ [] }
    {
        Shelf {
            bytes: Vec::new(alloc),
            ends: Vec::new(alloc),
        }
    }

    /// How many texts there are.
    pub(crate) fn len(&self) -> usize
        ensures { result ≡ length self.now }
    {
        self.ends.len()
    }

    /// The text at that place from 0.
    pub(crate) fn get(&self, at: usize) -> &[u8]
        requires { at < length self.now }
        ensures { slice_get self.now at ≡ Some result.now }
    {
        part(&self.bytes, &self.ends, at)
    }

    /// Puts the text behind the others. Where there is no room for it they stay as they were.
    pub(crate) fn push(&mut self, text: &[u8]) -> Result<(), AllocError>
        ensures added { OnOk result (self.new ≡ self.old ++ text.now ∷ []) }
        ensures as_before { OnErr result (self.new ≡ self.old) }
        ensures extends { Extends self.old self.new }
    {
        let begin = self.bytes.len();
        if begin > u32::MAX as usize || text.len() > u32::MAX as usize - begin {
            return Err(AllocError);
        }
        self.ends.reserve(1)?;
        self.bytes.extend_from_slice(text)?;
        self.ends.push_reserved((begin + text.len()) as u32);
        Ok(())
    }
}
