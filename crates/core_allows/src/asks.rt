//! Asks.

ghost use Rattle.std.specs.Prelude.{◌≡◌};
ghost use Rattle.pipe_types.specs.declared.step.Step.TheVariants.{Ask};
ghost use Rattle.pipe_model.specs.{Ledger.{due}, Legal.{may_come}};
ghost use Rattle.core_state.specs.Stands.{Stands};

use core_state::Core;
use pipe_types::numbers::SubNo;
use pipe_types::topology::feeds;

/// Whether the ask for `n` units may come: so many are due on the subscription, and at least one.
pub fn may_ask(core: &Core, sub: SubNo, n: u32) -> bool
    requires stands { Stands core.now }
    ensures { result ≡ may_come core.now.topology core.now.journal.steps (Ask sub n) }
{
    1 <= n && n == due(core, sub)
}

/// The size of the ask that is due on the subscription, in units, and 0 where none is or it is not live.
fn due(core: &Core, sub: SubNo) -> u32
    requires stands { Stands core.now }
    ensures { result ≡ due core.now.topology core.now.journal.steps sub }
{
    if feeds(&core.topology, sub.producer, sub.consumer) {
        core.subs.due(sub)
    } else {
        0
    }
}
