//! The lines of what one step acknowledges.

ghost use Rattle.std.specs.Prelude.{◌≡◌, ◌||◌, ℕ, List, true, false, is_some, IfOk};
ghost use Rattle.pipe_types.specs.{Sound.{IsSound}, declared.step.Step.{Step}};
ghost use Rattle.pipe_model.specs.History.{History};
ghost use Rattle.pipe_journal.specs.Acked.{AreAcked};
ghost use Rattle.journal_texts.specs.Acks.{ack_line};
ghost use Rattle.ack_texts.specs.{Lines.{line_if_any, step_acks}, Logs.{numbers_by}, Sides.{IsLeast, IsSide}};

use crate::sides::least;
use crate::windows::put_side;
use journal_texts::memory::MemoryText;
use journal_texts::sink::TextSink;
use pipe_journal::AckRow;
use pipe_types::bytes::Bytes;
use pipe_types::topology::{StageSpec, Topology};
use std::alloc::{AllocError, Global};

/// Writes the line of the stage, of whose sides the first numbers were found.
fn put_line<W: TextSink>(
    out: &mut W,
    spec: &StageSpec,
    rows: &[AckRow],
    won: Option<u32>,
    lost: Option<u32>,
)
    requires won { IsLeast (numbers_by rows.now spec.now.no true) 0 won }
    requires lost { IsLeast (numbers_by rows.now spec.now.no false) 0 lost }
    ensures { (successful failed : List ℕ) → IsSide 0 (numbers_by rows.now spec.now.no true) successful → IsSide 0 (numbers_by rows.now spec.now.no false) failed
        → W.puts out.old out.new (ack_line spec.now.name successful failed) }
{
    out.put(b"ack ");
    out.put(spec.name.as_str().as_bytes());
    out.put(b" ok ");
    put_side(out, rows, spec.no, true, won);
    out.put(b" failed ");
    put_side(out, rows, spec.no, false, lost);
    out.put(b"\n");
}

/// Whether one of both was found.
fn is_any(won: Option<u32>, lost: Option<u32>) -> bool
    ensures { result ≡ (is_some won || is_some lost) }
{
    won.is_some() || lost.is_some()
}

/// Writes the line of the stage, where one of the rows is its.
fn put_line_of<W: TextSink>(out: &mut W, spec: &StageSpec, rows: &[AckRow])
    ensures { (successful failed : List ℕ) → IsSide 0 (numbers_by rows.now spec.now.no true) successful → IsSide 0 (numbers_by rows.now spec.now.no false) failed
        → W.puts out.old out.new (line_if_any spec.now.name successful failed) }
{
    let won = least(rows, spec.no, true, 0);
    let lost = least(rows, spec.no, false, 0);
    if is_any(won, lost) {
        put_line(out, spec, rows, won, lost);
    }
}

/// Writes the lines of what a step acknowledges, of which these are the rows in the journal's log, in the order of the stages.
pub fn put_group<W: TextSink>(out: &mut W, topology: &Topology, rows: &[AckRow])
    requires sound { IsSound topology.now }
    ensures { (before : History) (step : Step) → AreAcked topology.now before step rows.now → W.puts out.old out.new (step_acks topology.now before step) }
{
    for spec in topology.stages.as_slice() {
        put_line_of(out, spec, rows);
    }
}

/// The lines of what a step acknowledges, of which these are the rows in the journal's log.
pub fn group_text(alloc: Global, topology: &Topology, rows: &[AckRow]) -> Result<Bytes, AllocError>
    requires sound { IsSound topology.now }
    ensures { IfOk result (λ text. (before : History) (step : Step) → AreAcked topology.now before step rows.now → text ≡ step_acks topology.now before step) }
{
    let mut out = MemoryText::new(alloc);
    put_group(&mut out, topology, rows);
    out.into_bytes()
}
