//! The acknowledgements of a journal, sent to a sink while the journal grows.

ghost use Rattle.std.specs.Prelude.{◌≡◌, ◌+◌, ◌≤◌, ◌<◌, ◌++◌, ◌∷◌, ℕ, List, [], true, false, length, Ok, IfOk, IfErr, IsTrue};
ghost use Rattle.pipe_types.specs.{Sound.{IsSound}, declared.step.Step.{Step}};
ghost use Rattle.pipe_model.specs.{Begins.{BeginsWith}, History.{History}};
ghost use Rattle.pipe_journal.specs.Acked.{AreAcked, IsLog};
ghost use Rattle.journal_texts.specs.Acks.{ack_text};
ghost use Rattle.ack_texts.specs.Lines.{step_acks};
ghost use Rattle.ack_feed.specs.Fed.{IsFed, Failing, is_failed, sent_after};
ghost use Rattle.ack_feed.specs.Moves.{watch_end};

use crate::lines::{FeedEnd, LineFeed};
use ack_texts::{group_len, group_text, rows_from};
use pipe_edges::ByteSink;
use pipe_journal::{AckRow, Journal, Watch, WatchEnd};
use pipe_types::bytes::Bytes;
use pipe_types::topology::Topology;
use std::alloc::{AllocError, Global};
use std::snapshot::Snapshot;

/// A place in a journal, up to which the lines of what its steps acknowledge were sent to a feed. It remembers as an `O` what its sink
/// was at first.
#[derive(Drop)]
pub struct FeedSince<K, O> {
    alloc: Global,
    topology: Topology,
    // The sink as it was when the feed was made.
    opened: O,
    feed: LineFeed<K>,
    // How many steps of the journal it has seen.
    shown: u64,
}

/// A feed of acknowledgements. A snapshot of its sink takes no memory.
pub type AckFeed<K> = FeedSince<K, Snapshot<K>>;

impl<K: ByteSink> AckFeed<K> {
    ghost use Rattle.ack_feed.specs.Feeds.{topology_of, shown_of, opened_of, feed_of, begun_by, held_by, Flows, Stands};
    ghost use Rattle.ack_feed.specs.Lines.{sink_of, held_lines, pending, room_of, room_made, has_failed};
    ghost use Rattle.ack_feed.specs.Moves.{Follows, SentBy, ended_failed};
    ghost use Rattle.ack_feed.specs.declared.lines.FeedEnd.TheVariants.{Done};

    /// A feed of the acknowledgements of a journal of this topology, before its first step, to this sink. It takes the memory for
    /// `room` texts here. Where memory is wanting both are given back.
    pub fn new(
        alloc: Global,
        topology: Topology,
        sink: K,
        room: u16,
    ) -> Result<AckFeed<K>, (Topology, K, AllocError)>
        requires sound { IsSound topology }
        requires least { 1 ≤ room }
        requires most { room ≤ 64 }
        ensures topology { IfOk result (λ f. topology_of f ≡ topology) }
        ensures sink { IfOk result (λ f. sink_of (feed_of f) ≡ sink) }
        ensures empty { IfOk result (λ f. held_lines (feed_of f) ≡ []) }
        ensures room { IfOk result (λ f. room_of (feed_of f) ≡ room) }
        ensures whole { IfOk result (λ f. has_failed (feed_of f) ≡ false) }
        ensures stands { IfOk result (λ f. Stands K.told K.held f []) }
        ensures begun { IfOk result (λ f. begun_by K.told K.held f ≡ held_by K.told K.held sink) }
        ensures returned { IfErr result (λ e. (e.0 ≡ topology) × (e.1 ≡ sink)) }
    {
        let opened = Snapshot::of(&sink);
        match LineFeed::new(alloc, sink, room) {
            Ok(feed) => Ok(FeedSince {
                alloc,
                topology,
                opened,
                feed,
                shown: 0,
            }),
            Err((sink, failed)) => Err((topology, sink, failed)),
        }
    }

    /// The sink. Lines that are held are let go.
    pub fn into_sink(self) -> K
        ensures { result ≡ sink_of (feed_of self) }
    {
        self.feed.into_sink()
    }

    /// Puts the line behind those that are held. Where as many are held as there is room for, it first writes the first of them. After
    /// a write that failed the line is let go, and nothing is written any more.
    pub fn send(&mut self, line: Bytes) -> FeedEnd
        ensures fed { (begun : List ℕ) (sent : List (List ℕ)) → IsTrue (K.told (sink_of (feed_of self.old)))
            → IsFed begun sent (K.held (sink_of (feed_of self.old))) (pending (feed_of self.old))
            → IsFed begun (sent_after result sent line) (K.held (sink_of (feed_of self.new))) (pending (feed_of self.new)) }
        ensures place { (topology_of self.new ≡ topology_of self.old) × (shown_of self.new ≡ shown_of self.old) × (opened_of self.new ≡ opened_of self.old) }
        ensures held { result ≡ FeedEnd.Done → held_lines (feed_of self.new) ≡ room_made (room_of (feed_of self.old)) (held_lines (feed_of self.old)) ++ line ∷ [] }
        ensures waits { length (held_lines (feed_of self.old)) < room_of (feed_of self.old) → sink_of (feed_of self.new) ≡ sink_of (feed_of self.old) }
        ensures same_telling { K.told (sink_of (feed_of self.new)) ≡ K.told (sink_of (feed_of self.old)) }
        ensures room { room_of (feed_of self.new) ≡ room_of (feed_of self.old) }
        ensures failed { has_failed (feed_of self.new) ≡ is_failed result }
        ensures over { has_failed (feed_of self.old) ≡ true → self.new ≡ self.old }
        ensures faults_stay { K.faults (sink_of (feed_of self.old)) ≤ K.faults (sink_of (feed_of self.new)) }
        ensures cause { Failing (has_failed (feed_of self.old)) (K.faults (sink_of (feed_of self.old))) (K.faults (sink_of (feed_of self.new))) result }
    {
        self.feed.send(line)
    }

    /// Writes all lines that are held, in their order. After a write that failed nothing is written any more.
    pub fn flush(&mut self) -> FeedEnd
        ensures fed { (begun : List ℕ) (sent : List (List ℕ)) → IsTrue (K.told (sink_of (feed_of self.old)))
            → IsFed begun sent (K.held (sink_of (feed_of self.old))) (pending (feed_of self.old))
            → IsFed begun sent (K.held (sink_of (feed_of self.new))) (pending (feed_of self.new)) }
        ensures place { (topology_of self.new ≡ topology_of self.old) × (shown_of self.new ≡ shown_of self.old) × (opened_of self.new ≡ opened_of self.old) }
        ensures empty { has_failed (feed_of self.new) ≡ false → held_lines (feed_of self.new) ≡ [] }
        ensures all { has_failed (feed_of self.new) ≡ false → pending (feed_of self.new) ≡ [] }
        ensures same_telling { K.told (sink_of (feed_of self.new)) ≡ K.told (sink_of (feed_of self.old)) }
        ensures room { room_of (feed_of self.new) ≡ room_of (feed_of self.old) }
        ensures failed { has_failed (feed_of self.new) ≡ is_failed result }
        ensures over { has_failed (feed_of self.old) ≡ true → self.new ≡ self.old }
        ensures faults_stay { K.faults (sink_of (feed_of self.old)) ≤ K.faults (sink_of (feed_of self.new)) }
        ensures cause { Failing (has_failed (feed_of self.old)) (K.faults (sink_of (feed_of self.old))) (K.faults (sink_of (feed_of self.new))) result }
    {
        self.feed.flush()
    }

    // Sends the lines of the rows of one step, and has then seen so many steps. Where a write fails or memory is wanting it stays where
    // it was.
    fn send_group(&mut self, rows: &[AckRow], next: u64) -> Result<FeedEnd, AllocError>
        requires sound { IsSound (topology_of self.old) }
        requires whole { has_failed (feed_of self.old) ≡ false }
        ensures sent { (before middle : History) (step : Step) → AreAcked (topology_of self.old) middle step rows.now
            → ack_text (topology_of self.old) (step ∷ middle) ≡ ack_text (topology_of self.old) before ++ step_acks (topology_of self.old) middle step
            → Flows K.told K.held self.old before → SentBy result K.told K.held self.old self.new next before (step ∷ middle) }
        ensures topology { topology_of self.new ≡ topology_of self.old }
        ensures opened { opened_of self.new ≡ opened_of self.old }
        ensures failed { has_failed (feed_of self.new) ≡ ended_failed result }
        ensures same_telling { K.told (sink_of (feed_of self.new)) ≡ K.told (sink_of (feed_of self.old)) }
        ensures faults_stay { K.faults (sink_of (feed_of self.old)) ≤ K.faults (sink_of (feed_of self.new)) }
        ensures cause { IfOk result (Failing false (K.faults (sink_of (feed_of self.old))) (K.faults (sink_of (feed_of self.new)))) }
    {
        if self.feed.make_room() == FeedEnd::Failed {
            return Ok(FeedEnd::Failed);
        }
        match group_text(self.alloc, &self.topology, rows) {
            Ok(text) => {
                self.feed.push(text);
                self.shown = next;
                Ok(FeedEnd::Done)
            }
            Err(failed) => Err(failed),
        }
    }

    // Goes on by all the new steps of the journal, whose log has these rows, and stops where a write fails or memory is wanting.
    fn catch_up(&mut self, journal: &Journal, rows: &[AckRow]) -> Result<FeedEnd, AllocError>
        requires sound { IsSound (topology_of self.old) }
        requires log { IsLog (topology_of self.old) journal.now.steps rows.now }
        requires follows { Follows K.told K.held self.old journal.now.steps }
        requires whole { has_failed (feed_of self.old) ≡ false }
        ensures follows { Follows K.told K.held self.new journal.now.steps }
        ensures all { result ≡ Ok Done → (shown_of self.new ≡ length journal.now.steps) × Flows K.told K.held self.new journal.now.steps }
        ensures topology { topology_of self.new ≡ topology_of self.old }
        ensures opened { opened_of self.new ≡ opened_of self.old }
        ensures failed { has_failed (feed_of self.new) ≡ ended_failed result }
        ensures same_telling { K.told (sink_of (feed_of self.new)) ≡ K.told (sink_of (feed_of self.old)) }
        ensures faults_stay { K.faults (sink_of (feed_of self.old)) ≤ K.faults (sink_of (feed_of self.new)) }
        ensures cause { IfOk result (Failing false (K.faults (sink_of (feed_of self.old))) (K.faults (sink_of (feed_of self.new)))) }
    {
        let steps = journal.len();
        let mut start = rows_from(rows, self.shown);
        'groups: while start < rows.len() {
            let end = start + group_len(&rows[start..]);
            let next = steps_upto(&rows[start], steps);
            match self.send_group(&rows[start..end], next) {
                Ok(FeedEnd::Done) => start = end,
                Ok(FeedEnd::Failed) => return Ok(FeedEnd::Failed),
                Err(failed) => return Err(failed),
            }
        }
        self.shown = steps;
        Ok(FeedEnd::Done)
    }
}

impl<K: ByteSink + Send> Watch for AckFeed<K> {
    ghost use Rattle.ack_feed.specs.Feeds.{topology_of, feed_of, begun_by, Stands};
    ghost use Rattle.ack_feed.specs.Lines.{sink_of, has_failed};

    ghost fits = { λ f topology. topology_of f ≡ topology };

    ghost begun = { λ f. begun_by K.told K.held f };

    ghost stands = { λ f steps. Stands K.told K.held f steps };

    ghost failed = { λ f. has_failed (feed_of f) };

    ghost faults = { λ f. K.faults (sink_of (feed_of f)) };

    /// Goes on over the new steps, sends the line of each acknowledgement, and writes all that is held; also where memory is wanting.
    fn seen(&mut self, journal: &Journal) -> WatchEnd {
        match self.catch_up(journal, journal.acked()) {
            Ok(FeedEnd::Failed) => WatchEnd::Failed,
            Ok(FeedEnd::Done) => end_of(self.feed.flush(), WatchEnd::Done),
            Err(_) => end_of(self.feed.flush(), WatchEnd::OutOfMemory),
        }
    }
}

/// How a watch ends after a flush that was to end so.
fn end_of(end: FeedEnd, done: WatchEnd) -> WatchEnd
    ensures { result ≡ watch_end end done }
{
    match end {
        FeedEnd::Done => done,
        FeedEnd::Failed => WatchEnd::Failed,
    }
}

/// How many steps there are up to that of the row, of so many in all.
fn steps_upto(row: &AckRow, steps: u64) -> u64
    requires { row.now.at < steps }
    ensures { result ≡ row.now.at + 1 }
{
    row.at + 1
}
