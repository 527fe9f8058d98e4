//! What the steps of a journal, oldest first, come to.

ghost use Rattle.std.specs.{Prelude.{◌≡◌, ◌++◌, ◌+◌, ◌<◌, ◌^◌, ◌||◌, if◌then◌else◌, IfOk, OnOk, reverse}, Option.{option_to_list}};
ghost use Rattle.pipe_journal.specs.Views.{step_seen};
ghost use Rattle.pipe_model.specs.Legal.{is_halt as is_halt_step};
ghost use Rattle.journal_texts.specs.Report.{fault_by as fault_by_how, fault_of as fault_of_step, is_restart as is_restart_step, is_refuse as is_refuse_step, cause_of as cause_of_step};
ghost use Rattle.journal_texts.specs.Findings.{AreFindings, Adds};

use pipe_journal::{AnswerView, Journal, StepView};
use pipe_types::numbers::StageNo;
use pipe_types::step::{DrainCause, SourceHow};
use std::alloc::{AllocError, Global};

/// What the report says of the steps.
#[derive(Drop)]
pub(crate) struct Findings {
    /// The sources that ended with a fault or with a line that is too long, in journal order; stage 0 is the control
    /// source.
    pub(crate) faults: Vec<(StageNo, SourceHow)>,
    /// The causes of the drain, in journal order.
    pub(crate) causes: Vec<DrainCause>,
    /// How many stages were restarted.
    pub(crate) restarts: usize,
    /// How many control lines were refused.
    pub(crate) refusals: usize,
    /// Whether the run was halted.
    pub(crate) halted: bool,
}

fn fault_by(stage: StageNo, how: SourceHow) -> Option<(StageNo, SourceHow)>
    ensures { result ≡ fault_by_how stage how }
{
    match how {
        SourceHow::Fault | SourceHow::TooLong => Some((stage, how)),
        SourceHow::End | SourceHow::Limit => None,
    }
}

fn fault_of(step: StepView<'_>) -> Option<(StageNo, SourceHow)>
    ensures { result ≡ fault_of_step (step_seen step.entry) }
{
    match step {
        StepView::SourceEnd { stage, how } => fault_by(stage, how),
        StepView::Late {
            stage,
            answer: AnswerView::Source(how),
            ..
        } => fault_by(stage, how),
        _ => None,
    }
}

/// Adds the source that the step ends, where it ends it with a fault or with a line that is too long.
fn push_fault(found: &mut Vec<(StageNo, SourceHow)>, step: StepView<'_>) -> Result<(), AllocError>
    ensures { OnOk result (found.new.items ≡ found.old.items ++ option_to_list (fault_of_step (step_seen step.entry))) }
{
    if let Some(fault) = fault_of(step) {
        found.push(fault)?;
    }
    Ok(())
}

fn is_restart(step: StepView<'_>) -> bool
    ensures { result ≡ is_restart_step (step_seen step.entry) }
{
    matches!(step, StepView::Restart { .. })
}

fn is_refusal(step: StepView<'_>) -> bool
    ensures { result ≡ is_refuse_step (step_seen step.entry) }
{
    matches!(step, StepView::Refuse { .. })
}

fn is_halt(step: StepView<'_>) -> bool
    ensures { result ≡ is_halt_step (step_seen step.entry) }
{
    matches!(step, StepView::Halt)
}

fn cause_of(step: StepView<'_>) -> Option<DrainCause>
    ensures { result ≡ cause_of_step (step_seen step.entry) }
{
    match step {
        StepView::Drain { cause } => Some(cause),
        _ => None,
    }
}

/// Adds the cause of the drain that the step begins, where it begins one.
fn push_cause(found: &mut Vec<DrainCause>, step: StepView<'_>) -> Result<(), AllocError>
    ensures { OnOk result (found.new.items ≡ found.old.items ++ option_to_list (cause_of_step (step_seen step.entry))) }
{
    if let Some(cause) = cause_of(step) {
        found.push(cause)?;
    }
    Ok(())
}

/// One more, where there is one.
fn counted(count: usize, is_one: bool) -> usize
    requires { count + 1 < 2 ^ 64 }
    ensures { result ≡ (if is_one then count + 1 else count) }
{
    if is_one { count + 1 } else { count }
}

/// Whether the run is halted after the step, given whether it was before.
pub(crate) fn halts_by(halted: bool, step: StepView<'_>) -> bool
    ensures { result ≡ (halted || is_halt_step (step_seen step.entry)) }
{
    halted || is_halt(step)
}

/// Adds what one step more comes to.
fn note(found: &mut Findings, step: StepView<'_>) -> Result<(), AllocError>
    requires restarts { found.old.restarts + 1 < 2 ^ 64 }
    requires refusals { found.old.refusals + 1 < 2 ^ 64 }
    ensures { OnOk result (Adds (step_seen step.entry) found.old found.new) }
{
    found.restarts = counted(found.restarts, is_restart(step));
    found.refusals = counted(found.refusals, is_refusal(step));
    found.halted = halts_by(found.halted, step);
    push_cause(&mut found.causes, step)?;
    push_fault(&mut found.faults, step)
}

/// What the report says of the steps, in one pass over them.
pub(crate) fn found_in(alloc: Global, journal: &Journal) -> Result<Findings, AllocError>
    ensures { IfOk result (AreFindings (reverse journal.now.steps)) }
{
    let mut found = Findings {
        faults: Vec::new(alloc),
        causes: Vec::new(alloc),
        restarts: 0,
        refusals: 0,
        halted: false,
    };
    for at in 0..journal.len() {
        note(&mut found, journal.view(at))?;
    }
    Ok(found)
}
