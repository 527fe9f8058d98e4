//! Why the drain may begin.

ghost use Rattle.std.specs.Prelude.{◌≡◌, ◌&&◌, ◌||◌, not, ◌==◌, nat_le};
ghost use Rattle.pipe_types.specs.declared.step.DrainCause.TheVariants.{Sources, Limit, Idle};
ghost use Rattle.pipe_model.specs.Legal.{all_ended, drains_for, may_control, has_ended};
ghost use Rattle.core_state.specs.Stands.{Stands};

use crate::rows::is_source_done;
use core_state::Core;

/// Whether the source of every producer has ended.
pub fn is_all_ended(core: &Core) -> bool
    requires stands { Stands core.now }
    ensures { result ≡ drains_for core.now.topology core.now.journal.steps Sources }
{
    for spec in core.topology.stages.as_slice() {
        if !is_source_done(core, spec) {
            return false;
        }
    }
    true
}

/// Whether the records or their bytes have reached their limit.
pub fn is_at_limit(core: &Core) -> bool
    requires stands { Stands core.now }
    ensures { result ≡ drains_for core.now.topology core.now.journal.steps Limit }
{
    core.topology.record_limit <= core.totals.accepted
        || core.topology.byte_limit <= core.totals.bytes
}

/// Whether sources have had nothing as often in a row as makes the pipeline idle.
pub fn is_idle_long(core: &Core) -> bool
    requires stands { Stands core.now }
    ensures { result ≡ drains_for core.now.topology core.now.journal.steps Idle }
{
    1 <= core.topology.idle_limit && core.topology.idle_limit as u64 <= core.totals.quiet
}
