//! A source in memory.

ghost use Rattle.std.specs.Prelude.{◌≡◌, ◌<◌, ◌≤◌, ◌+◌, true, [], List, take, drop, length, IfOk};
ghost use Rattle.pipe_edges.specs.Reads.{ReadsBytes, ReadIsCounted, ReadHasCause};
ghost use Rattle.mem_edges.specs.Scripts.{read_answer, IsGift, faults_after_read, waits_after_read};

use pipe_edges::{ByteSource, ReadEnd};
use pipe_types::bytes::Bytes;
use pipe_types::list::ListOf;
use std::alloc::{AllocError, Global};

/// What a source does at one read: it gives so many bytes, 0 counting as 1, has nothing ready, or fails.
#[derive(Clone, Copy, PartialEq, Eq)]
pub enum SourceAct {
    Give(usize),
    Wait,
    Fail,
}

/// What a source does, one act for each read.
pub type SourceScript = ListOf<SourceAct>;

/// Bytes that are given by a script, and after it as many at each read as fit.
#[derive(Drop)]
pub struct MemSource {
    bytes: Bytes,
    at: usize,
    script: SourceScript,
    next: usize,
    faults: u64,
    waits: u64,
    ghost within: { at ≤ length bytes },
    ghost script_within: { next ≤ length script },
}

impl MemSource {
    ghost use Rattle.mem_edges.specs.MemSource.{all_bytes, acts, IsUnread};

    /// These bytes, of which none was read.
    pub fn new(bytes: Bytes, script: SourceScript) -> MemSource
        ensures bytes { all_bytes result ≡ bytes }
        ensures acts { acts result ≡ script }
        ensures unread { IsUnread result }
    {
        MemSource {
            bytes,
            at: 0,
            script,
            next: 0,
            faults: 0,
            waits: 0,
        }
    }

    // A source of the same bytes and the same script, of which none was read.
    pub(crate) fn again(&self, alloc: Global) -> Result<MemSource, AllocError>
        ensures bytes { IfOk result (λ s. all_bytes s ≡ all_bytes self.now) }
        ensures acts { IfOk result (λ s. acts s ≡ acts self.now) }
        ensures unread { IfOk result IsUnread }
    {
        let bytes = Bytes::from_vec(Vec::from_slice(alloc, self.bytes.as_slice())?);
        let script = SourceScript::from_vec(Vec::from_slice(alloc, self.script.as_slice())?);
        Ok(MemSource::new(bytes, script))
    }
}

impl ByteSource for MemSource {
    ghost use Rattle.mem_edges.specs.MemSource.{acts_left, taken_of, left_of};

    ghost told = { λ _. true };

    ghost taken = { taken_of };

    ghost left = { left_of };

    ghost faults = { λ m. m.faults };

    ghost waits = { λ m. m.waits };

    fn read(&mut self, piece: &mut [u8]) -> ReadEnd
        requires { 0 < length piece.old }
        ensures counted { ReadIsCounted (length piece.old) result }
        ensures bytes { ReadsBytes (taken_of self.old) (left_of self.old) piece.new (taken_of self.new) (left_of self.new) result }
        ensures faults_stay { self.old.faults ≤ self.new.faults }
        ensures waits_stay { self.old.waits ≤ self.new.waits }
        ensures cause { ReadHasCause self.old.faults self.new.faults self.old.waits self.new.waits result }
        ensures answer { result ≡ read_answer (acts_left self.old) (length piece.old) (length (left_of self.old)) }
        ensures acts { acts_left self.new ≡ drop 1 (acts_left self.old) }
        ensures faults { self.new.faults ≡ faults_after_read result self.old.faults }
        ensures waits { self.new.waits ≡ waits_after_read result self.old.waits }
    {
        let mut most = usize::MAX;
        if self.next < self.script.as_slice().len() {
            let act = self.script.as_slice()[self.next];
            self.next += 1;
            match act {
                SourceAct::Give(n) => most = n.max(1),
                SourceAct::Wait => {
                    self.waits = self.waits.saturating_add(1);
                    return ReadEnd::Empty;
                }
                SourceAct::Fail => {
                    self.faults = self.faults.saturating_add(1);
                    return ReadEnd::Failed;
                }
            }
        }
        give(self.bytes.as_slice(), &mut self.at, most, piece)
    }

    fn at(&mut self, now: u64) {
        let _ = now;
    }
}

// Gives at most so many of the bytes that are left, one at least.
fn give(bytes: &[u8], at: &mut usize, most: usize, piece: &mut [u8]) -> ReadEnd
    requires within { at.old ≤ length bytes.now }
    requires some { 0 < most }
    requires room { 0 < length piece.old }
    ensures within { at.new ≤ length bytes.now }
    ensures counted { ReadIsCounted (length piece.old) result }
    ensures bytes { ReadsBytes (take at.old bytes.now) (drop at.old bytes.now) piece.new
        (take at.new bytes.now) (drop at.new bytes.now) result }
    ensures gift { IsGift most (length piece.old) (length (drop at.old bytes.now)) result }
{
    let from = *at;
    if from == bytes.len() {
        return ReadEnd::End;
    }
    let count = most.min(piece.len()).min(bytes.len() - from);
    piece[..count].copy_from_slice(&bytes[from..from + count]);
    *at = from + count;
    ReadEnd::Got(count)
}
