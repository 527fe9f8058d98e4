//! Lines that go to a sink.

ghost use Rattle.std.specs.Prelude.{◌≡◌, ◌≤◌, ◌<◌, ◌++◌, ◌∷◌, ℕ, List, [], true, false, length, drop, IfOk, IfErr, IsTrue};
ghost use Rattle.ack_feed.specs.Fed.{IsFed, Failing, is_failed, sent_after};

use circular_buffer::HeapCircularBuffer;
use pipe_edges::{ByteSink, PutEnd, put_all};
use pipe_types::bytes::Bytes;
use std::alloc::{AllocError, Global};

/// What a call of a feed came to.
#[derive(Clone, Copy, PartialEq, Eq)]
pub enum FeedEnd {
    Done,
    Failed,
}

/// Lines that are held, and the sink that they go to.
#[derive(Drop)]
pub struct LineFeed<K> {
    sink: K,
    lines: HeapCircularBuffer<Bytes>,
    // How many bytes of the first line went out before a write failed.
    fault: Option<usize>,
    ghost has_room: { 1 ≤ lines.capacity },
}

impl<K: ByteSink> LineFeed<K> {
    ghost use Rattle.ack_feed.specs.Lines.{sink_of, held_lines, pending, room_of, room_made, has_failed};

    /// A feed that holds no line, to this sink. It takes the memory for `room` lines here. Where memory is wanting the sink is given
    /// back.
    pub fn new(alloc: Global, sink: K, room: u16) -> Result<LineFeed<K>, (K, AllocError)>
        requires least { 1 ≤ room }
        requires most { room ≤ 64 }
        ensures sink { IfOk result (λ f. sink_of f ≡ sink) }
        ensures empty { IfOk result (λ f. held_lines f ≡ []) }
        ensures room { IfOk result (λ f. room_of f ≡ room) }
        ensures whole { IfOk result (λ f. has_failed f ≡ false) }
        ensures returned { IfErr result (λ e. e.0 ≡ sink) }
    {
        match HeapCircularBuffer::with_capacity(alloc, room as usize) {
            Ok(lines) => Ok(LineFeed {
                sink,
                lines,
                fault: None,
            }),
            Err(failed) => Err((sink, failed)),
        }
    }

    /// The sink. Lines that are held are let go.
    pub fn into_sink(self) -> K
        ensures { result ≡ sink_of self }
    {
        let LineFeed { sink, lines, fault } = self;
        let _ = fault;
        drop(lines);
        sink
    }

    /// Puts the line behind those that are held. Where as many are held as there is room for, it first writes the first of them. After
    /// a write that failed the line is let go, and nothing is written any more.
    pub fn send(&mut self, line: Bytes) -> FeedEnd
        ensures fed { (begun : List ℕ) (sent : List (List ℕ)) → IsTrue (K.told (sink_of self.old))
            → IsFed begun sent (K.held (sink_of self.old)) (pending self.old)
            → IsFed begun (sent_after result sent line) (K.held (sink_of self.new)) (pending self.new) }
        ensures held { result ≡ FeedEnd.Done → held_lines self.new ≡ room_made (room_of self.old) (held_lines self.old) ++ line ∷ [] }
        ensures waits { length (held_lines self.old) < room_of self.old → sink_of self.new ≡ sink_of self.old }
        ensures same_telling { K.told (sink_of self.new) ≡ K.told (sink_of self.old) }
        ensures room { room_of self.new ≡ room_of self.old }
        ensures failed { has_failed self.new ≡ is_failed result }
        ensures over { has_failed self.old ≡ true → self.new ≡ self.old }
        ensures faults_stay { K.faults (sink_of self.old) ≤ K.faults (sink_of self.new) }
        ensures cause { Failing (has_failed self.old) (K.faults (sink_of self.old)) (K.faults (sink_of self.new)) result }
    {
        if self.make_room() == FeedEnd::Failed {
            return FeedEnd::Failed;
        }
        self.push(line);
        FeedEnd::Done
    }

    // Where as many lines are held as there is room for, writes the first of them.
    #[tactic(auto, using(crate::proofs::Feeding::room_left, crate::proofs::Feeding::room_gone))]
    pub(crate) fn make_room(&mut self) -> FeedEnd
        ensures fed { (begun : List ℕ) (sent : List (List ℕ)) → IsTrue (K.told (sink_of self.old))
            → IsFed begun sent (K.held (sink_of self.old)) (pending self.old)
            → IsFed begun sent (K.held (sink_of self.new)) (pending self.new) }
        ensures some_room { has_failed self.new ≡ false → length (held_lines self.new) < room_of self.new }
        ensures held { has_failed self.new ≡ false → held_lines self.new ≡ room_made (room_of self.old) (held_lines self.old) }
        ensures waits { length (held_lines self.old) < room_of self.old → self.new ≡ self.old }
        ensures same_telling { K.told (sink_of self.new) ≡ K.told (sink_of self.old) }
        ensures room { room_of self.new ≡ room_of self.old }
        ensures failed { has_failed self.new ≡ is_failed result }
        ensures over { has_failed self.old ≡ true → self.new ≡ self.old }
        ensures faults_stay { K.faults (sink_of self.old) ≤ K.faults (sink_of self.new) }
        ensures cause { Failing (has_failed self.old) (K.faults (sink_of self.old)) (K.faults (sink_of self.new)) result }
    {
        if self.fault.is_some() {
            return FeedEnd::Failed;
        }
        if self.lines.len() < self.lines.capacity() {
            return FeedEnd::Done;
        }
        self.write_first()
    }

    // Puts the line behind those that are held.
    pub(crate) fn push(&mut self, line: Bytes)
        requires some_room { length (held_lines self.old) < room_of self.old }
        requires whole { has_failed self.old ≡ false }
        ensures fed { (begun : List ℕ) (sent : List (List ℕ)) → IsFed begun sent (K.held (sink_of self.old)) (pending self.old)
            → IsFed begun (sent ++ line ∷ []) (K.held (sink_of self.new)) (pending self.new) }
        ensures held { held_lines self.new ≡ held_lines self.old ++ line ∷ [] }
        ensures sink { sink_of self.new ≡ sink_of self.old }
        ensures room { room_of self.new ≡ room_of self.old }
        ensures whole { has_failed self.new ≡ false }
    {
        if self.lines.try_push_back(line).is_err() {
            unreachable!();
        }
    }

    /// Writes all lines that are held, in their order. After a write that failed nothing is written any more.
    pub fn flush(&mut self) -> FeedEnd
        ensures fed { (begun : List ℕ) (sent : List (List ℕ)) → IsTrue (K.told (sink_of self.old))
            → IsFed begun sent (K.held (sink_of self.old)) (pending self.old)
            → IsFed begun sent (K.held (sink_of self.new)) (pending self.new) }
        ensures empty { has_failed self.new ≡ false → held_lines self.new ≡ [] }
        ensures all { has_failed self.new ≡ false → pending self.new ≡ [] }
        ensures same_telling { K.told (sink_of self.new) ≡ K.told (sink_of self.old) }
        ensures room { room_of self.new ≡ room_of self.old }
        ensures failed { has_failed self.new ≡ is_failed result }
        ensures over { has_failed self.old ≡ true → self.new ≡ self.old }
        ensures faults_stay { K.faults (sink_of self.old) ≤ K.faults (sink_of self.new) }
        ensures cause { Failing (has_failed self.old) (K.faults (sink_of self.old)) (K.faults (sink_of self.new)) result }
    {
        if self.fault.is_some() {
            return FeedEnd::Failed;
        }
        'empty: while !self.lines.is_empty() {
            if self.write_first() == FeedEnd::Failed {
                return FeedEnd::Failed;
            }
        }
        FeedEnd::Done
    }

    // Writes the first line that is held, and lets it go where all of it went out.
    fn write_first(&mut self) -> FeedEnd
        requires some { 0 < length (held_lines self.old) }
        requires whole { has_failed self.old ≡ false }
        ensures fed { (begun : List ℕ) (sent : List (List ℕ)) → IsTrue (K.told (sink_of self.old))
            → IsFed begun sent (K.held (sink_of self.old)) (pending self.old)
            → IsFed begun sent (K.held (sink_of self.new)) (pending self.new) }
        ensures rest { has_failed self.new ≡ false → held_lines self.new ≡ drop 1 (held_lines self.old) }
        ensures lines { has_failed self.new ≡ false → length (held_lines self.new) < length (held_lines self.old) }
        ensures same_telling { K.told (sink_of self.new) ≡ K.told (sink_of self.old) }
        ensures room { room_of self.new ≡ room_of self.old }
        ensures failed { has_failed self.new ≡ is_failed result }
        ensures faults_stay { K.faults (sink_of self.old) ≤ K.faults (sink_of self.new) }
        ensures cause { Failing false (K.faults (sink_of self.old)) (K.faults (sink_of self.new)) result }
    {
        let Some(line) = self.lines.front() else {
            unreachable!();
        };
        match put_all(&mut self.sink, line) {
            PutEnd::All => {
                self.lines.pop_front();
                FeedEnd::Done
            }
            PutEnd::Failed(count) => {
                self.fault = Some(count);
                FeedEnd::Failed
            }
        }
    }
}
