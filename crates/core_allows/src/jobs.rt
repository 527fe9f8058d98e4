//! Fetches.

ghost use Rattle.std.specs.Prelude.{◌≡◌, ◌==◌};
ghost use Rattle.pipe_types.specs.declared.step.Step.TheVariants.{Fetch};
ghost use Rattle.pipe_model.specs.Legal.{may_come, bound as bound_as};
ghost use Rattle.core_state.specs.Stands.{Stands};

use core_accepts::fetches::bound;
use core_rows::jobs::may_fetch as is_ready;
use core_state::Core;
use pipe_types::numbers::StageNo;

/// Whether the producer may begin a fetch of `n` records: it is ready to fetch, and so many may it bring.
pub fn may_fetch(core: &Core, stage: StageNo, n: u32) -> bool
    requires stands { Stands core.now }
    ensures { result ≡ may_come core.now.topology core.now.journal.steps (Fetch stage n) }
{
    if !is_bound(core, stage, n) {
        return false;
    }
    match core.topology.stages.find(stage) {
        Some(spec) => is_ready(core, spec),
        None => false,
    }
}

/// Whether the producer may bring so many.
fn is_bound(core: &Core, stage: StageNo, n: u32) -> bool
    requires stands { Stands core.now }
    ensures { result ≡ (n == bound_as core.now.topology core.now.journal.steps stage) }
{
    n == bound(core, stage)
}
