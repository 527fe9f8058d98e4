//! A sink in memory.

ghost use Rattle.std.specs.Prelude.{◌≡◌, ◌<◌, ◌≤◌, ◌+◌, ◌-◌, true, List, drop, length, vec_len, vec_capacity, IfOk};
ghost use Rattle.pipe_edges.specs.Writes.{WritesBytes, WriteIsCounted, WriteHasCause};
ghost use Rattle.mem_edges.specs.Scripts.{write_count, TakesBy, room_after, faults_after_write};

use pipe_edges::{ByteSink, WriteEnd};
use pipe_types::bytes::Bytes;
use pipe_types::list::ListOf;
use std::alloc::{AllocError, Global};

/// What a sink does at one write: it takes so many bytes, 0 counting as 1, or fails.
#[derive(Clone, Copy, PartialEq, Eq)]
pub enum SinkAct {
    Take(usize),
    Fail,
}

/// What a sink does, one act for each write.
pub type SinkScript = ListOf<SinkAct>;

/// Bytes that are taken by a script, and after it all that are offered, as far as there is room. Where nothing
/// fits a write fails.
#[derive(Drop)]
pub struct MemSink {
    held: Vec<u8>,
    room: usize,
    script: SinkScript,
    next: usize,
    faults: u64,
    ghost within: { next ≤ length script },
    ghost room_is_there: { vec_len held + room ≤ vec_capacity held },
}

impl MemSink {
    ghost use Rattle.mem_edges.specs.MemSink.{held_by, room_of, acts, acts_left, IsUnwritten};

    /// Holds these bytes, and takes memory for `room` further ones.
    pub fn new(held: Bytes, room: usize, script: SinkScript) -> Result<MemSink, AllocError>
        ensures held { IfOk result (λ k. held_by k ≡ held) }
        ensures room { IfOk result (λ k. room_of k ≡ room) }
        ensures acts { IfOk result (λ k. acts k ≡ script) }
        ensures unwritten { IfOk result IsUnwritten }
    {
        let mut bytes = held.into_vec();
        bytes.reserve(room)?;
        Ok(MemSink {
            held: bytes,
            room,
            script,
            next: 0,
            faults: 0,
        })
    }

    /// All the bytes that it holds.
    pub fn held(&self) -> &[u8]
        ensures { result.now ≡ held_by self.now }
    {
        self.held.as_slice()
    }

    // Plays the next act, which allows at most so many of `size` bytes.
    fn play(&mut self, size: usize) -> usize
        ensures count { result ≡ write_count (acts_left self.old) size }
        ensures acts { acts_left self.new ≡ drop 1 (acts_left self.old) }
        ensures rest { (self.new.held ≡ self.old.held) × (room_of self.new ≡ room_of self.old)
            × (self.new.faults ≡ self.old.faults) }
    {
        if self.next == self.script.as_slice().len() {
            return size;
        }
        let act = self.script.as_slice()[self.next];
        self.next += 1;
        match act {
            SinkAct::Take(n) => n.max(1).min(size),
            SinkAct::Fail => 0,
        }
    }

    // A sink that holds the same bytes, with the same room and script, which answered no write.
    pub(crate) fn again(&self, alloc: Global) -> Result<MemSink, AllocError>
        ensures held { IfOk result (λ k. held_by k ≡ held_by self.now) }
        ensures room { IfOk result (λ k. room_of k ≡ room_of self.now) }
        ensures acts { IfOk result (λ k. acts k ≡ acts self.now) }
        ensures unwritten { IfOk result IsUnwritten }
    {
        let held = Bytes::from_vec(Vec::from_slice(alloc, self.held.as_slice())?);
        let script = SinkScript::from_vec(Vec::from_slice(alloc, self.script.as_slice())?);
        MemSink::new(held, self.room, script)
    }
}

impl ByteSink for MemSink {
    ghost use Rattle.mem_edges.specs.MemSink.{held_by, room_of, acts_left};

    ghost told = { λ _. true };

    ghost held = { held_by };

    ghost faults = { λ m. m.faults };

    fn write(&mut self, piece: &[u8]) -> WriteEnd
        requires { 0 < length piece.now }
        ensures counted { WriteIsCounted (length piece.now) result }
        ensures bytes { WritesBytes (held_by self.old) piece.now (held_by self.new) result }
        ensures faults_stay { self.old.faults ≤ self.new.faults }
        ensures cause { WriteHasCause self.old.faults self.new.faults result }
        ensures takes { TakesBy (acts_left self.old) (length piece.now) (room_of self.old) result }
        ensures room { room_of self.new ≡ room_after (room_of self.old) result }
        ensures acts { acts_left self.new ≡ drop 1 (acts_left self.old) }
        ensures faults { self.new.faults ≡ faults_after_write result self.old.faults }
    {
        let most = self.play(piece.len());
        let count = most.min(self.room);
        if count == 0 {
            self.faults = self.faults.saturating_add(1);
            return WriteEnd::Failed;
        }
        if self.held.extend_from_slice(&piece[..count]).is_err() {
            unreachable!();
        }
        self.room -= count;
        WriteEnd::Took(count)
    }
}
