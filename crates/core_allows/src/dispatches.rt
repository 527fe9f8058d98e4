//! Whether a dispatch of a stage sends or loses anything.

ghost use Rattle.std.specs.Prelude.{◌≡◌};
ghost use Rattle.pipe_types.specs.declared.step.Step.TheVariants.{Dispatch as DispatchStep};
ghost use Rattle.pipe_model.specs.Legal.{may_come};
ghost use Rattle.core_state.specs.Stands.{Stands};

use core_moves::dispatches::may_dispatch as sends_or_loses;
use core_state::Core;
use pipe_types::numbers::StageNo;

/// Whether the stage may dispatch: it is live, and its dispatch sends something or loses what is over the size of its
/// buffer.
pub fn may_dispatch(core: &Core, stage: StageNo) -> bool
    requires stands { Stands core.now }
    ensures { result ≡ may_come core.now.topology core.now.journal.steps (DispatchStep stage) }
{
    match core.topology.stages.find(stage) {
        Some(spec) => sends_or_loses(core, spec),
        None => false,
    }
}
