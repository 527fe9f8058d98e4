//! Kills by control lines, restarts, and the halt.

ghost use Rattle.std.specs.Prelude.{◌≡◌, Some};
ghost use Rattle.pipe_types.specs.{declared.step.Step.TheVariants.{Kill, Restart, Halt}, Stages.{spec_of}};
ghost use Rattle.pipe_model.specs.Legal.{may_come};
ghost use Rattle.core_state.specs.Stands.{Stands};
ghost use Rattle.core_allows.specs.Lives.{does_halt};

use crate::rows::may_control;
use core_rows::rows::{is_ready_to_restart, may_restart as is_below_limit};
use core_state::Core;
use pipe_types::message::Why;
use pipe_types::numbers::StageNo;
use pipe_types::topology::StageSpec;

/// Whether a control line may kill the stage so.
pub fn may_kill(core: &Core, stage: StageNo, why: Why) -> bool
    requires stands { Stands core.now }
    ensures { result ≡ may_come core.now.topology core.now.journal.steps (Kill stage why) }
{
    match why {
        Why::Kill | Why::Stop => may_control(core) && core.is_live(stage),
        _ => false,
    }
}

/// Whether the stage may be restarted: it needs it, no job of it is out, and its limit allows one more now.
pub fn may_restart(core: &Core, stage: StageNo) -> bool
    requires stands { Stands core.now }
    ensures { result ≡ may_come core.now.topology core.now.journal.steps (Restart stage) }
{
    match core.topology.stages.find(stage) {
        Some(spec) => is_ready_to_restart(core, spec) && is_below_limit(core, stage),
        None => false,
    }
}

/// Whether the pipeline may halt: a stage is ready to be restarted, and its limit is met.
pub fn may_halt(core: &Core) -> bool
    requires stands { Stands core.now }
    ensures { result ≡ may_come core.now.topology core.now.journal.steps Halt }
{
    for spec in core.topology.stages.as_slice() {
        if is_over_limit(core, spec) {
            return true;
        }
    }
    false
}

/// Whether the stage is ready to be restarted, and its limit is met.
fn is_over_limit(core: &Core, spec: &StageSpec) -> bool
    requires stands { Stands core.now }
    requires there { spec_of core.now.topology spec.now.no ≡ Some spec.now }
    ensures { result ≡ does_halt core.now.topology core.now.journal.steps spec.now }
{
    is_ready_to_restart(core, spec) && !is_below_limit(core, spec.no)
}
