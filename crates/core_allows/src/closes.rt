//! Closes of open batches.

ghost use Rattle.std.specs.Prelude.{◌≡◌, ◌≤◌, ◌&&◌, ◌==◌, true, Some};
ghost use Rattle.pipe_types.specs.declared.step.Step.TheVariants.{Close};
ghost use Rattle.pipe_model.specs.{Flow.{closing, view_of, first_in}, Legal.{may_come, has_role, is_batcher_role, trigger_of, same_trigger}};
ghost use Rattle.core_state.specs.Stands.{Stands};

use crate::rows::is_batcher;
use core_rows::rests::is_dry;
use core_state::Core;
use pipe_types::message::Trigger;
use pipe_types::numbers::{MsgNo, StageNo};

/// Whether the batcher may close the open batch that begins with the message, by this trigger: the batcher is live, and
/// the trigger is the first that holds of such a batch.
pub fn may_close(core: &Core, stage: StageNo, first: MsgNo, trigger: Trigger) -> bool
    requires stands { Stands core.now }
    ensures { result ≡ may_come core.now.topology core.now.journal.steps (Close stage first trigger) }
{
    core.is_live(stage)
        && is_batcher(core, stage)
        && 1 <= first.0
        && closes_by(core, stage, first, trigger)
}

/// Whether an open batch of the batcher begins with the message, and this is the first trigger that holds of it.
fn closes_by(core: &Core, stage: StageNo, first: MsgNo, trigger: Trigger) -> bool
    requires stands { Stands core.now }
    requires role { has_role core.now.topology stage is_batcher_role ≡ true }
    requires least { 1 ≤ first.0 }
    ensures { result ≡ (first.0 == first_in (closing core.now.journal.steps (view_of core.now.topology core.now.journal.steps) stage first.0)
        && same_trigger (trigger_of core.now.topology core.now.journal.steps stage (closing core.now.journal.steps (view_of core.now.topology core.now.journal.steps) stage first.0)) trigger) }
{
    let dry = is_dry(core, stage);
    match core.batchers[stage.0 as usize].closable_at(first, core.totals.now, dry) {
        Some(found) => is_same(found.trigger, trigger),
        None => false,
    }
}

fn is_same(found: Trigger, trigger: Trigger) -> bool
    ensures { result ≡ same_trigger (Some found) trigger }
{
    matches!(
        (found, trigger),
        (Trigger::Size, Trigger::Size)
            | (Trigger::Flush, Trigger::Flush)
            | (Trigger::Timeout, Trigger::Timeout)
    )
}
