//! The step that the last one owes.

ghost use Rattle.std.specs.Prelude.{◌≡◌, ◌∷◌, IfOk, Some, None, if◌then◌else◌};
ghost use Rattle.pipe_model.specs.History.{history};
ghost use Rattle.pipe_model.specs.Legal.{owed as owed_in, may_dispatch as may_dispatch_in, passes as passes_in, is_dispatch_of as is_dispatch_of_in, is_crash_of as is_crash_of_in};
ghost use Rattle.plain_legal.specs.Machines.{MachineStands, topology_of, history_of, test_of};

use crate::machine::Machine;
use pipe_types::message::{BatchEnd, Why};
use pipe_types::numbers::StageNo;
use pipe_types::step::Step;
use plain_counts::has_crash;
use plain_places::may_dispatch_now;
use std::alloc::AllocError;

/// What the last step owes: nothing, a dispatch of the stage that accepted, or a kill of the stage that crashed.
#[derive(Clone, Copy)]
pub(crate) enum Owed {
    Nothing,
    DispatchOf(StageNo),
    CrashOf(StageNo),
}

fn is_dispatch_of(step: &Step, stage: StageNo) -> bool
    ensures { result ≡ is_dispatch_of_in stage step.now }
{
    match step {
        Step::Dispatch { stage: at } => stage.0 == at.0,
        _ => false,
    }
}

fn is_crash_of(step: &Step, stage: StageNo) -> bool
    ensures { result ≡ is_crash_of_in stage step.now }
{
    match step {
        Step::Kill {
            stage: at,
            why: Why::Crash,
        } => stage.0 == at.0,
        _ => false,
    }
}

/// What an accept owes: a dispatch of its stage, where that sends or loses something.
fn owed_by_accept(machine: &Machine<'_>, stage: StageNo) -> Result<Owed, AllocError>
    requires { MachineStands machine.now }
    ensures { IfOk result (λ owed. test_of owed ≡ (if may_dispatch_in (topology_of machine.now) (history_of machine.now) stage then Some (is_dispatch_of_in stage) else None)) }
{
    if may_dispatch_now(&machine.flow, stage)? {
        Ok(Owed::DispatchOf(stage))
    } else {
        Ok(Owed::Nothing)
    }
}

/// What the newest step of the machine owes.
fn owed_by(machine: &Machine<'_>, last: &Step, before: &[Step]) -> Result<Owed, AllocError>
    requires stands { MachineStands machine.now }
    requires newest { history_of machine.now ≡ last.now ∷ history before.now }
    ensures { IfOk result (λ owed. test_of owed ≡ owed_in (topology_of machine.now) (last.now ∷ history before.now)) }
{
    match last {
        Step::Accept { stage, .. } => owed_by_accept(machine, *stage),
        Step::Done { stage, replies } => {
            if has_crash(replies.as_slice()) {
                Ok(Owed::CrashOf(*stage))
            } else {
                Ok(Owed::Nothing)
            }
        }
        Step::Wrote {
            stage,
            end: BatchEnd::Crashed,
            ..
        } => Ok(Owed::CrashOf(*stage)),
        _ => Ok(Owed::Nothing),
    }
}

/// The step that is owed.
pub(crate) fn last_owes(machine: &Machine<'_>) -> Result<Owed, AllocError>
    requires { MachineStands machine.now }
    ensures { IfOk result (λ owed. test_of owed ≡ owed_in (topology_of machine.now) (history_of machine.now)) }
{
    match machine.flow.past.steps.split_last() {
        Some((last, before)) => owed_by(machine, last, before),
        None => Ok(Owed::Nothing),
    }
}

/// Whether the step is the owed one, and where none is owed, whether it may come otherwise.
pub(crate) fn passes(owed: Owed, step: &Step, otherwise: bool) -> bool
    ensures { result ≡ passes_in (test_of owed) step.now otherwise }
{
    match owed {
        Owed::Nothing => otherwise,
        Owed::DispatchOf(stage) => is_dispatch_of(step, stage),
        Owed::CrashOf(stage) => is_crash_of(step, stage),
    }
}
