//! Ticks, the begin of the drain, and control lines that are not obeyed.

ghost use Rattle.std.specs.Prelude.{◌≡◌, ◌==◌, ◌+◌};
ghost use Rattle.pipe_types.specs.declared.step.Step.TheVariants.{Tick, Drain, Refuse};
ghost use Rattle.pipe_model.specs.Legal.{may_come, drains_for};
ghost use Rattle.core_state.specs.Stands.{Stands};

use crate::rows::{controls, may_control};
use core_rows::causes::{is_all_ended, is_at_limit, is_idle_long};
use core_rows::jobs::is_draining;
use core_state::Core;
use pipe_types::step::DrainCause;

/// Whether the tick may come: it is no earlier than the last. `now` is in milliseconds.
pub fn may_tick(core: &Core, now: u64) -> bool
    requires stands { Stands core.now }
    ensures { result ≡ may_come core.now.topology core.now.journal.steps (Tick now) }
{
    core.now() <= now
}

/// Whether the drain may begin with this cause.
pub fn may_drain(core: &Core, cause: DrainCause) -> bool
    requires stands { Stands core.now }
    ensures { result ≡ may_come core.now.topology core.now.journal.steps (Drain cause) }
{
    !is_draining(core) && drains_for(core, cause)
}

/// Whether the cause holds.
fn drains_for(core: &Core, cause: DrainCause) -> bool
    requires stands { Stands core.now }
    ensures { result ≡ drains_for core.now.topology core.now.journal.steps cause }
{
    match cause {
        DrainCause::Sources => is_all_ended(core),
        DrainCause::Control => may_control(core),
        DrainCause::Limit => is_at_limit(core),
        DrainCause::Idle => is_idle_long(core),
    }
}

/// Whether the control line with that number may come next and not be obeyed.
pub fn may_refuse(core: &Core, line: u32) -> bool
    requires stands { Stands core.now }
    ensures { result ≡ may_come core.now.topology core.now.journal.steps (Refuse line) }
{
    may_control(core) && is_next(line, controls(core))
}

/// Whether the number is one more than the count.
fn is_next(line: u32, count: u32) -> bool
    ensures { result ≡ (line == count + 1) }
{
    1 <= line && line - 1 == count
}
