//! A log of acknowledged messages, step by step.

ghost use Rattle.std.specs.Prelude.{◌≡◌, ◌<◌, ◌≤◌, ◌++◌, true, false, IsTrue, length, take, drop};
ghost use Rattle.pipe_types.specs.{Counts.{Rose}, Sound.{IsSound}};
ghost use Rattle.pipe_model.specs.History.{History};
ghost use Rattle.pipe_journal.specs.Acked.{IsLog};
ghost use Rattle.journal_texts.specs.{Acks.{ack_text}, Streams.{Begun}};
ghost use Rattle.ack_texts.specs.Groups.{Early, IsGroup, Late, Rising};

use crate::lines::put_group;
use journal_texts::sink::TextSink;
use journal_texts::stream::{Streamed, write_streamed};
use pipe_edges::ByteSink;
use pipe_journal::{AckRow, Journal};
use pipe_types::topology::Topology;
use std::alloc::Global;

/// How many rows stand in front of those of the steps from place `at` on, in rows whose places do not fall. It looks at no other
/// rows than these and one more.
pub fn rows_from(rows: &[AckRow], at: u64) -> usize
    ensures within { result ≤ length rows.now }
    ensures late { Late at (drop result rows.now) }
    ensures early { Rising 0 rows.now → Early at (take result rows.now) }
{
    let mut count = rows.len();
    'rows: while count > 0 && rows[count - 1].at >= at {
        count -= 1;
    }
    count
}

/// How many rows, from the first on, are of the step of the first one.
pub fn group_len(rows: &[AckRow]) -> usize
    requires { 0 < length rows.now }
    ensures some { 0 < result }
    ensures within { result ≤ length rows.now }
    ensures group { IsGroup (take result rows.now) (drop result rows.now) }
{
    let at = rows[0].at;
    let mut count = 1;
    'rows: while count < rows.len() && rows[count].at == at {
        count += 1;
    }
    count
}

/// Writes the lines of the groups of a log, one after another.
fn put_groups<W: TextSink>(out: &mut W, topology: &Topology, rows: &[AckRow])
    requires sound { IsSound topology.now }
    ensures { (steps : History) → IsLog topology.now steps rows.now → W.puts out.old out.new (ack_text topology.now steps) }
{
    let mut start = 0;
    'groups: while start < rows.len() {
        let end = start + group_len(&rows[start..]);
        put_group(out, topology, &rows[start..end]);
        start = end;
    }
}

/// Writes the acknowledgements of a run, a line for each, in the order of the steps and then of the producers: the producer's name,
/// the numbers of its messages that succeeded by that step, and the numbers of those that failed.
pub fn put_acks<W: TextSink>(out: &mut W, topology: &Topology, journal: &Journal)
    requires sound { IsSound topology.now }
    requires log { IsLog topology.now journal.now.steps journal.now.acked.rows }
    ensures { W.puts out.old out.new (ack_text topology.now journal.now.steps) }
{
    put_groups(out, topology, journal.acked());
}

// The text of a run's acknowledgements.
#[derive(Clone, Copy)]
struct AckText<'a> {
    topology: &'a Topology,
    journal: &'a Journal,
}

impl Streamed for AckText<'_> {
    ghost fits = { λ t. IsSound t.topology.now × IsLog t.topology.now t.journal.now.steps t.journal.now.acked.rows };

    ghost text = { λ t. ack_text t.topology.now t.journal.now.steps };

    fn put_on<W: TextSink>(&self, out: &mut W) {
        put_acks(out, self.topology, self.journal);
    }
}

/// Writes the acknowledgements of a run in pieces, and answers whether all of them were written. It needs no memory: where there is
/// none for a piece, its parts are written one by one.
pub fn write_acks<K: ByteSink>(
    alloc: Global,
    sink: &mut K,
    topology: &Topology,
    journal: &Journal,
) -> bool
    requires sound { IsSound topology.now }
    requires log { IsLog topology.now journal.now.steps journal.now.acked.rows }
    ensures told { K.told sink.new ≡ K.told sink.old }
    ensures stay { K.faults sink.old ≤ K.faults sink.new }
    ensures fault { result ≡ false → Rose (K.faults sink.old) (K.faults sink.new) }
    ensures whole { result ≡ true → IsTrue (K.told sink.old) → K.held sink.new ≡ K.held sink.old ++ ack_text topology.now journal.now.steps }
    ensures begun { IsTrue (K.told sink.old) → Begun (K.held sink.old) (K.held sink.new) (ack_text topology.now journal.now.steps) }
{
    write_streamed(alloc, sink, &AckText { topology, journal })
}
