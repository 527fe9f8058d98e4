//! Ticks, the drain, kills by control lines, restarts and the halt.

ghost use Rattle.std.specs.Prelude.{◌≡◌, ◌&&◌, ◌||◌, IfOk};
ghost use Rattle.pipe_model.specs.History.{history};
ghost use Rattle.pipe_model.specs.Legal.{may_come, happened, is_drain, has_role, is_producer_role, has_ended as has_ended_in, drains_for as drains_for_in, may_kill as may_kill_in, needs_restart as needs_restart_in};
ghost use Rattle.plain_lives.specs.Lives.{LivesStand};
ghost use Rattle.plain_rows.specs.Halts.{halts_at};

use pipe_types::message::Why;
use pipe_types::numbers::StageNo;
use pipe_types::step::{DrainCause, Step};
use plain_counts::{
    accepted, accepted_bytes, all_ended, controls, has_drained, has_ended, has_halted,
    has_post_out, is_producer, may_control, may_restart, now, plus, quiet_row,
};
use plain_lives::Past;
use std::alloc::AllocError;

/// Whether the clock may stand at this tick, in milliseconds.
pub fn may_tick(past: &Past<'_>, tick: u64) -> bool
    ensures { result ≡ may_come past.now.topology.now (history past.now.steps.now) (Step.Tick tick) }
{
    now(past.steps) <= tick
}

/// Whether the records or the bytes that were accepted have reached their limit.
fn is_at_limit(past: &Past<'_>) -> Result<bool, AllocError>
    ensures { IfOk result (λ is. is ≡ drains_for_in past.now.topology.now (history past.now.steps.now) DrainCause.Limit) }
{
    let records = accepted(past.steps)?;
    let bytes = accepted_bytes(past.steps)?;
    Ok(u64::from(past.topology.record_limit) <= records || past.topology.byte_limit <= bytes)
}

/// Whether nothing came for as many fetches as the idle limit says.
fn is_idle(past: &Past<'_>) -> Result<bool, AllocError>
    ensures { IfOk result (λ is. is ≡ drains_for_in past.now.topology.now (history past.now.steps.now) DrainCause.Idle) }
{
    let row = quiet_row(past.steps)?;
    let limit = past.topology.idle_limit;
    Ok(1 <= limit && u64::from(limit) <= row)
}

fn drains_for(past: &Past<'_>, cause: DrainCause) -> Result<bool, AllocError>
    ensures { IfOk result (λ may. may ≡ drains_for_in past.now.topology.now (history past.now.steps.now) cause) }
{
    match cause {
        DrainCause::Sources => Ok(all_ended(past.topology, past.steps)),
        DrainCause::Control => may_control(past.steps),
        DrainCause::Limit => is_at_limit(past),
        DrainCause::Idle => is_idle(past),
    }
}

/// Whether the drain may begin with this cause.
pub fn may_drain(past: &Past<'_>, cause: DrainCause) -> Result<bool, AllocError>
    ensures { IfOk result (λ may. may ≡ may_come past.now.topology.now (history past.now.steps.now) (Step.Drain cause)) }
{
    let drains = drains_for(past, cause)?;
    Ok(!has_drained(past.steps) && drains)
}

/// Whether a control line may kill the stage. A kill for a crash is never asked for, but owed.
pub fn may_kill(past: &Past<'_>, stage: StageNo, why: Why) -> Result<bool, AllocError>
    requires { LivesStand past.now.topology.now (history past.now.steps.now) past.now.lives.now }
    ensures { IfOk result (λ may. may ≡ may_kill_in past.now.topology.now (history past.now.steps.now) stage why) }
{
    let control = may_control(past.steps)?;
    match why {
        Why::Kill => Ok(control && past.is_live(stage)),
        Why::Stop => Ok(control && past.is_live(stage)),
        _ => Ok(false),
    }
}

/// Whether the stage is a producer that has ended, or that stands behind the drain.
fn is_done(past: &Past<'_>, stage: StageNo) -> bool
    ensures { result ≡ (has_role past.now.topology.now stage is_producer_role && (has_ended_in (history past.now.steps.now) stage || happened is_drain (history past.now.steps.now))) }
{
    is_producer(past.topology, stage) && (has_ended(past.steps, stage) || has_drained(past.steps))
}

/// Whether the stage is dead and needs a restart.
fn needs_restart(past: &Past<'_>, stage: StageNo) -> bool
    requires { LivesStand past.now.topology.now (history past.now.steps.now) past.now.lives.now }
    ensures { result ≡ needs_restart_in past.now.topology.now (history past.now.steps.now) stage }
{
    let found = past.topology.stages.find(stage).is_some();
    found && (!past.is_live(stage) && (!has_halted(past.steps) && !is_done(past, stage)))
}

/// Whether the stage may be restarted.
pub fn may_renew(past: &Past<'_>, stage: StageNo) -> Result<bool, AllocError>
    requires { LivesStand past.now.topology.now (history past.now.steps.now) past.now.lives.now }
    ensures { IfOk result (λ may. may ≡ may_come past.now.topology.now (history past.now.steps.now) (Step.Restart stage)) }
{
    let may = may_restart(past.topology, past.steps, stage)?;
    let out = has_post_out(past.steps, stage);
    Ok(needs_restart(past, stage) && (!out && may))
}

/// Whether the stage needs a restart and has no post out, and its limit is met.
fn does_halt(past: &Past<'_>, stage: StageNo) -> Result<bool, AllocError>
    requires { LivesStand past.now.topology.now (history past.now.steps.now) past.now.lives.now }
    ensures { IfOk result (λ does. does ≡ halts_at past.now.topology.now (history past.now.steps.now) stage) }
{
    let may = may_restart(past.topology, past.steps, stage)?;
    let out = has_post_out(past.steps, stage);
    Ok(needs_restart(past, stage) && (!out && !may))
}

/// Whether the pipeline may halt.
pub fn may_halt(past: &Past<'_>) -> Result<bool, AllocError>
    requires { LivesStand past.now.topology.now (history past.now.steps.now) past.now.lives.now }
    ensures { IfOk result (λ may. may ≡ may_come past.now.topology.now (history past.now.steps.now) Step.Halt) }
{
    let specs = past.topology.stages.as_slice();
    for spec in specs {
        let does = does_halt(past, spec.no)?;
        if does {
            return Ok(true);
        }
    }
    Ok(false)
}

/// Whether control line `line` may be refused next.
pub fn may_refuse(past: &Past<'_>, line: u32) -> Result<bool, AllocError>
    ensures { IfOk result (λ may. may ≡ may_come past.now.topology.now (history past.now.steps.now) (Step.Refuse line)) }
{
    let control = may_control(past.steps)?;
    let next = plus(controls(past.steps)?, 1)?;
    Ok(control && u64::from(line) == next)
}
