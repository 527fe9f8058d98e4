//! The bytes that were read ahead.

ghost use Rattle.std.specs.Prelude.{◌≡◌, ◌<◌, ◌≤◌, ◌++◌, [], List, ℕ, length, take, IsTrue, IfOk};
ghost use Rattle.pipe_edges.specs.Reads.{ReadHasCause};
ghost use Rattle.rate_gate.specs.Room.{FillsBytes, FillsRoom, IsGift};

use memchr::memchr;
use pipe_edges::{ByteSource, ReadEnd};
use std::alloc::{AllocError, Global};
use std::marker::Model;

/// How many bytes a read is offered.
const PIECE: usize = 8192;

// How many of the next bytes are given: a part of a record, all up to the end of one, or none.
#[derive(Clone, Copy)]
pub enum Gift {
    Part(usize),
    Record(usize),
    Stopped,
}

// What is given of these bytes, where a record may be given or may not.
pub fn gift_of(next: &[u8], has_left: bool) -> Gift
    requires { 0 < length next.now }
    ensures { IsGift has_left next.now result }
{
    match memchr(b'\n', next) {
        None => Gift::Part(next.len()),
        Some(at) if has_left => Gift::Record(at + 1),
        Some(0) => Gift::Stopped,
        Some(at) => Gift::Part(at),
    }
}

// A buffer of which the bytes from `start` to `end` are held.
#[derive(Drop)]
pub struct Room {
    bytes: Vec<u8>,
    start: usize,
    end: usize,
}

impl Model for Room {
    ghost use Rattle.std.specs.Prelude.{◌<◌, ◌≤◌, ◌-◌, List, ℕ, length, take, drop};

    ghost Value = { List ℕ };

    ghost view = { λ r. take (r.end - r.start) (drop r.start r.bytes.items) };

    ghost invariant = { λ r. (r.start ≤ r.end) × (r.end ≤ length r.bytes.items) × (0 < length r.bytes.items) };
}

impl Room {
    pub fn new(alloc: Global) -> Result<Room, AllocError>
        ensures { IfOk result (λ r. r ≡ []) }
    {
        let mut bytes = Vec::new(alloc);
        bytes.resize(PIECE, 0)?;
        Ok(Room {
            bytes,
            start: 0,
            end: 0,
        })
    }

    pub fn len(&self) -> usize
        ensures { result ≡ length self.now }
    {
        self.end - self.start
    }

    // Reads once from the source.
    pub fn fill<B: ByteSource>(&mut self, source: &mut B) -> ReadEnd
        ensures same_telling { B.told source.new ≡ B.told source.old }
        ensures bytes { IsTrue (B.told source.old)
            → FillsBytes (B.taken source.old) (B.left source.old) self.new (B.taken source.new) (B.left source.new) result }
        ensures held { FillsRoom self.new result }
        ensures faults_stay { B.faults source.old ≤ B.faults source.new }
        ensures waits_stay { B.waits source.old ≤ B.waits source.new }
        ensures cause { ReadHasCause (B.faults source.old) (B.faults source.new) (B.waits source.old) (B.waits source.new) result }
    {
        self.start = 0;
        self.end = 0;
        let end = source.read(&mut self.bytes);
        if let ReadEnd::Got(n) = end {
            self.end = n;
        }
        end
    }

    // What may be given of the first bytes, at most so many.
    pub fn next(&self, most: usize, has_left: bool) -> Gift
        requires some { 0 < length self.now }
        requires most { 0 < most }
        ensures { IsGift has_left (take most self.now) result }
    {
        let count = most.min(self.end - self.start);
        gift_of(&self.bytes[self.start..self.start + count], has_left)
    }

    // Moves the first n bytes into the front of the piece.
    pub fn hand(&mut self, piece: &mut [u8], n: usize)
        requires fits { n ≤ length piece.old }
        requires held { n ≤ length self.old }
        ensures given { take n piece.new ≡ take n self.old }
        ensures rest { self.old ≡ take n piece.new ++ self.new }
    {
        let from = self.start;
        piece[..n].copy_from_slice(&self.bytes[from..from + n]);
        self.start = from + n;
    }
}
