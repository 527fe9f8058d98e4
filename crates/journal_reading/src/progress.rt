//! The steps that were read, and the run that they are, while they are legal.

ghost use Rattle.std.specs.Prelude.{◌≡◌, ◌∷◌, length, false, IfOk};
ghost use Rattle.pipe_types.specs.declared.topology.Topology.{Topology as TopologyOf};
ghost use Rattle.pipe_model.specs.Legal.{is_legal};
ghost use Rattle.reading_laws.specs.Text.{line_in, jobs_after};
ghost use Rattle.journal_reading.specs.Reads.{read_as, steps_in, IsOf};

use crate::step::{LineRead, read_step};
use pipe_journal::Journal;
use pipe_types::step::Step;
use plain_run::PlainRun;
use std::alloc::{AllocError, Global};

/// The steps so far.
#[derive(Drop)]
pub(crate) enum Progress {
    /// They are legal.
    Legal(PlainRun),
    /// They are not.
    Illegal(Journal),
}

/// What the next line spells.
#[tactic(auto, using(crate::proofs::Reading::legal_line, crate::proofs::Reading::illegal_line))]
pub(crate) fn read_next(
    alloc: Global,
    progress: &Progress,
    line: &[u8],
) -> Result<LineRead, AllocError>
    ensures { (topology : TopologyOf) → IsOf topology progress.now → IfOk result (λ read. read ≡ read_as (line_in (jobs_after topology (steps_in progress.now)) (length (steps_in progress.now)) line.now)) }
{
    match progress {
        Progress::Legal(run) => read_step(alloc, Some(run), line, run.journal().len()),
        Progress::Illegal(journal) => read_step(alloc, None, line, journal.len()),
    }
}

/// The steps with one more, that are not legal.
#[tactic(auto, using(crate::proofs::Reading::illegal_taken))]
fn take_illegal(mut journal: Journal, step: Step) -> Result<Progress, AllocError>
    ensures { IfOk result (λ progress. (steps_in progress ≡ step ∷ journal.steps) × ((topology : TopologyOf) → is_legal topology (step ∷ journal.steps) ≡ false → IsOf topology progress)) }
{
    match journal.push(step) {
        Ok(()) => Ok(Progress::Illegal(journal)),
        Err((_, failed)) => Err(failed),
    }
}

/// The steps with one more, which is judged as long as the steps are legal.
#[tactic(auto, using(crate::proofs::Reading::refused_taken))]
fn take_legal(mut run: PlainRun, step: Step) -> Result<Progress, AllocError>
    ensures { IfOk result (λ progress. (steps_in progress ≡ step ∷ run.steps) × IsOf run.topology progress) }
{
    match run.step(&step) {
        Ok(true) => Ok(Progress::Legal(run)),
        Ok(false) => take_illegal(run.into_parts().1, step),
        Err(failed) => Err(failed),
    }
}

/// The steps with one more.
pub(crate) fn take_in(progress: Progress, step: Step) -> Result<Progress, AllocError>
    ensures { (topology : TopologyOf) → IsOf topology progress → IfOk result (λ next. (steps_in next ≡ step ∷ steps_in progress) × IsOf topology next) }
{
    match progress {
        Progress::Legal(run) => take_legal(run, step),
        Progress::Illegal(journal) => take_illegal(journal, step),
    }
}

/// The journal of the steps.
pub(crate) fn journal_of(progress: Progress) -> Journal
    ensures { result.steps ≡ steps_in progress }
{
    match progress {
        Progress::Legal(run) => run.into_parts().1,
        Progress::Illegal(journal) => journal,
    }
}
