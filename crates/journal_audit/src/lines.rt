//! One line judged.

ghost use Rattle.std.specs.Prelude.{◌≡◌, IfOk};
ghost use Rattle.journal_audit.specs.Lines.{Finds, Judges};

use crate::verdict::{BadCause, cause_of};
use journal_reading::{LineRead, PlainRun, read_step};
use pipe_types::step::Step;
use std::alloc::{AllocError, Global};

/// What a line behind the first is.
#[derive(Clone, Copy)]
pub(crate) enum LineFound {
    /// A legal step.
    Good,
    /// The end line.
    Last,
    /// A bad line.
    Bad(BadCause),
}

/// Judges the line, without its LF. A legal step is appended to the run, which has the steps of the lines before.
pub(crate) fn audit_line(
    alloc: Global,
    run: &mut PlainRun,
    line: &[u8],
) -> Result<LineFound, AllocError>
    ensures topology { run.new.topology ≡ run.old.topology }
    ensures found { IfOk result (Finds run.old.topology run.old.steps run.new.steps line.now) }
{
    let steps = run.journal().len();
    let read = read_step(alloc, Some(run), line, steps)?;
    match read {
        LineRead::Step(step) => audit_step(run, &step),
        LineRead::End => Ok(LineFound::Last),
        LineRead::Bad(fault) => Ok(LineFound::Bad(cause_of(fault)?)),
    }
}

/// Judges a step, and appends it where it is legal.
fn audit_step(run: &mut PlainRun, step: &Step) -> Result<LineFound, AllocError>
    ensures topology { run.new.topology ≡ run.old.topology }
    ensures found { IfOk result (Judges run.old.topology run.old.steps run.new.steps step.now) }
{
    let legal = run.step(step)?;
    if legal {
        Ok(LineFound::Good)
    } else {
        Ok(LineFound::Bad(BadCause::Step))
    }
}
