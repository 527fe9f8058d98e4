//! A step is judged, and appended where it is legal.

ghost use Rattle.std.specs.Prelude.{◌≡◌, ◌∷◌, ◌&&◌, not, true, false, Some, None, is_some, unwrap_or, IfOk, IfSome, OnErr, IsTrue};
ghost use Rattle.pipe_model.specs.Legal.{allows as allows_as, is_dispatch_of as is_dispatch_of_as, is_crash_of as is_crash_of_as, owed, happened, is_halt};
ghost use Rattle.core_state.specs.Stands.{Stands, Holds};
ghost use Rattle.plain_run.specs.{Owes.{OwesDispatch}, Runs.{IsRun}, Works.{WorksStand}, declared.after.After.TheVariants.{Free, Accept as AfterAccept, Crash as AfterCrash}};

use crate::accepts::{append_owed, is_due, plan_owed};
use crate::after::After;
use crate::appends::append;
use crate::given::is_given;
use crate::works::Works;
use core_allows::allowing::allows;
use core_kills::kills::kill_owed;
use core_state::Core;
use pipe_journal::StepView;
use pipe_types::message::Why;
use pipe_types::numbers::StageNo;
use pipe_types::step::Step;
use std::alloc::AllocError;

/// Appends the step where it is legal, and answers what it may owe; none where it is not legal.
pub(crate) fn judge(
    core: &mut Core,
    works: &mut Works,
    after: After,
    step: &Step,
) -> Result<Option<After>, AllocError>
    requires run { IsRun core.old works.old after }
    ensures told { IfOk result (λ next. is_some next ≡ allows_as core.old.topology core.old.journal.steps step.now) }
    ensures appended { IfOk result (λ next. is_some next ≡ true → core.new.journal.steps ≡ step.now ∷ core.old.journal.steps) }
    ensures refused { IfOk result (λ next. is_some next ≡ false → core.new.journal.steps ≡ core.old.journal.steps) }
    ensures unchanged { OnErr result (core.new.journal.steps ≡ core.old.journal.steps) }
    ensures topology { core.new.topology ≡ core.old.topology }
    ensures run { IfOk result (λ next. IsRun core.new works.new (unwrap_or next after)) }
    ensures same { OnErr result (IsRun core.new works.new after) }
{
    match after {
        After::Free => judge_free(core, works, step),
        After::Accept(stage) => judge_accepted(core, works, stage, step),
        After::Crash(stage) => Ok(judge_crashed(core, works, stage, step)),
    }
}

/// The same where no step is owed.
fn judge_free(core: &mut Core, works: &mut Works, step: &Step) -> Result<Option<After>, AllocError>
    requires stands { Stands core.old }
    requires works { WorksStand core.old.topology core.old.journal.steps works.old }
    ensures told { IfOk result (λ next. is_some next ≡ allows_as core.old.topology core.old.journal.steps step.now) }
    ensures appended { IfOk result (λ next. is_some next ≡ true → core.new.journal.steps ≡ step.now ∷ core.old.journal.steps) }
    ensures refused { IfOk result (λ next. is_some next ≡ false → core.new.journal.steps ≡ core.old.journal.steps) }
    ensures unchanged { OnErr result (core.new.journal.steps ≡ core.old.journal.steps) }
    ensures topology { core.new.topology ≡ core.old.topology }
    ensures run { IfOk result (λ next. IsRun core.new works.new (unwrap_or next Free)) }
    ensures same { OnErr result (IsRun core.new works.new Free) }
{
    let legal = is_legal(core, works, step)?;
    if !legal {
        return Ok(None);
    }
    let copied = StepView::of(step).to_step(core.alloc)?;
    let next = append(core, works, copied)?;
    Ok(Some(next))
}

/// Whether the step is legal where none is owed.
fn is_legal(core: &Core, works: &Works, step: &Step) -> Result<bool, AllocError>
    requires stands { Stands core.now }
    requires works { WorksStand core.now.topology core.now.journal.steps works.now }
    ensures { IfOk result (λ yes. yes ≡ allows_as core.now.topology core.now.journal.steps step.now) }
{
    if !allows(core, step) {
        return Ok(false);
    }
    is_given(core, works, step)
}

/// The same where the producer brought records in the last step.
fn judge_accepted(
    core: &mut Core,
    works: &mut Works,
    stage: StageNo,
    step: &Step,
) -> Result<Option<After>, AllocError>
    requires holds { Holds core.old }
    requires owes { OwesDispatch core.old.topology core.old.journal.steps stage }
    requires works { WorksStand core.old.topology core.old.journal.steps works.old }
    ensures told { IfOk result (λ next. is_some next ≡ allows_as core.old.topology core.old.journal.steps step.now) }
    ensures appended { IfOk result (λ next. is_some next ≡ true → core.new.journal.steps ≡ step.now ∷ core.old.journal.steps) }
    ensures refused { IfOk result (λ next. is_some next ≡ false → core.new.journal.steps ≡ core.old.journal.steps) }
    ensures unchanged { OnErr result (core.new.journal.steps ≡ core.old.journal.steps) }
    ensures topology { core.new.topology ≡ core.old.topology }
    ensures run { IfOk result (λ next. IsRun core.new works.new (unwrap_or next (AfterAccept stage))) }
    ensures same { OnErr result (IsRun core.new works.new (AfterAccept stage)) }
{
    let sent = plan_owed(core, stage)?;
    if !is_due(core, stage, &sent) {
        let next = judge_free(core, works, step)?;
        return Ok(next);
    }
    if has_halted(core) {
        return Ok(None);
    }
    if !is_dispatch_of(step, stage) {
        return Ok(None);
    }
    append_owed(core, stage, sent)?;
    Ok(Some(After::Free))
}

/// Whether the pipeline has halted.
pub(crate) fn has_halted(core: &Core) -> bool
    requires holds { Holds core.now }
    ensures { result ≡ happened is_halt core.now.journal.steps }
{
    core.totals.halted
}

/// Whether the step is a dispatch of the stage.
fn is_dispatch_of(step: &Step, stage: StageNo) -> bool
    ensures { result ≡ is_dispatch_of_as stage step.now }
{
    match step {
        Step::Dispatch { stage: other } => stage.0 == other.0,
        _ => false,
    }
}

/// The same where a handler of the stage crashed in the last step. It takes no memory.
fn judge_crashed(core: &mut Core, works: &Works, stage: StageNo, step: &Step) -> Option<After>
    requires holds { Holds core.old }
    requires owes { owed core.old.topology core.old.journal.steps ≡ Some (is_crash_of_as stage) }
    requires works { WorksStand core.old.topology core.old.journal.steps works.now }
    ensures told { is_some result ≡ allows_as core.old.topology core.old.journal.steps step.now }
    ensures appended { is_some result ≡ true → core.new.journal.steps ≡ step.now ∷ core.old.journal.steps }
    ensures refused { is_some result ≡ false → core.new.journal.steps ≡ core.old.journal.steps }
    ensures topology { core.new.topology ≡ core.old.topology }
    ensures run { IsRun core.new works.now (unwrap_or result (AfterCrash stage)) }
{
    let _works = works;
    if has_halted(core) {
        return None;
    }
    if !is_crash_of(step, stage) {
        return None;
    }
    kill_owed(core, stage, Why::Crash);
    Some(After::Free)
}

/// Whether the step is the kill of the stage for a crash.
fn is_crash_of(step: &Step, stage: StageNo) -> bool
    ensures { result ≡ is_crash_of_as stage step.now }
{
    match step {
        Step::Kill {
            stage: other,
            why: Why::Crash,
        } => stage.0 == other.0,
        _ => false,
    }
}
