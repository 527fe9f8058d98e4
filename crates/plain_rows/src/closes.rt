//! Closing of batches.

ghost use Rattle.std.specs.Prelude.{◌≡◌, ◌+◌, ◌&&◌, ◌==◌, IfOk, nat_le};
ghost use Rattle.pipe_types.specs.Stages.{spec_of};
ghost use Rattle.pipe_model.specs.{History.{history, accepted as accepted_in, now as now_in}, Flow.{place as place_in}};
ghost use Rattle.pipe_model.specs.Legal.{is_before as is_before_in, none_before as none_before_in, is_dry as is_dry_in, batch_timeout_in, gathered_at as gathered_at_in, trigger_of as trigger_of_in, same_trigger as same_trigger_in, may_close as may_close_in};
ghost use Rattle.plain_lives.specs.Lives.{LivesStand};
ghost use Rattle.plain_queues.specs.Flows.{topology_of, history_of};
ghost use Rattle.plain_places.specs.Standing.{TablesStand};

use crate::gathers::{batch_size, ends_in_flush};
use pipe_types::message::{Place, Trigger};
use pipe_types::numbers::StageNo;
use pipe_types::topology::Topology;
use plain_counts::{gathered_at, has_drained, is_batcher, is_early, is_no_fetch_out, now, unit_no};
use plain_lives::Past;
use plain_places::{closing_now, place_now};
use plain_queues::Flow;
use plain_sends::first;
use std::alloc::AllocError;

/// Whether the message stands in a producer, a processor or the supervisor, or in the inbox of the batcher.
fn is_before(topology: &Topology, batcher: StageNo, place: Option<Place>) -> bool
    ensures { result ≡ is_before_in topology.now batcher place }
{
    match place {
        Some(Place::Waiting(stage)) => is_early(topology, stage),
        Some(Place::Running(stage)) => is_early(topology, stage),
        Some(Place::Inbox(sub)) => {
            is_early(topology, sub.consumer) || sub.consumer.0 == batcher.0
        }
        _ => false,
    }
}

fn stands_before(flow: &Flow<'_>, batcher: StageNo, n: u32) -> bool
    requires { TablesStand (topology_of flow.now) (history_of flow.now) flow.now.tables.now }
    ensures { result ≡ is_before_in (topology_of flow.now) batcher (place_in (topology_of flow.now) (history_of flow.now) n) }
{
    is_before(flow.past.topology, batcher, place_now(flow, n))
}

/// Whether no message stands in a producer, a processor or the supervisor, or in the inbox of the batcher.
fn none_before(flow: &Flow<'_>, batcher: StageNo) -> Result<bool, AllocError>
    requires { TablesStand (topology_of flow.now) (history_of flow.now) flow.now.tables.now }
    ensures { IfOk result (λ none. none ≡ none_before_in (topology_of flow.now) (history_of flow.now) batcher (accepted_in (history_of flow.now))) }
{
    let count = flow.tables.places.len();
    let mut none = true;
    for i in 0..count {
        let before = stands_before(flow, batcher, unit_no(i as u64 + 1)?);
        none = !before && none;
    }
    Ok(none)
}

/// Whether the pipeline drains and nothing more comes to the batcher.
fn is_dry(flow: &Flow<'_>, batcher: StageNo) -> Result<bool, AllocError>
    requires { TablesStand (topology_of flow.now) (history_of flow.now) flow.now.tables.now }
    ensures { IfOk result (λ dry. dry ≡ is_dry_in (topology_of flow.now) (history_of flow.now) batcher) }
{
    let none = none_before(flow, batcher)?;
    let no_fetch = is_no_fetch_out(flow.past.topology, flow.past.steps);
    Ok(has_drained(flow.past.steps) && (no_fetch && none))
}

/// How long an open batch of the stage waits, in milliseconds.
fn batch_timeout(topology: &Topology, stage: StageNo) -> u64
    ensures { result ≡ batch_timeout_in (spec_of topology.now stage) }
{
    match topology.stages.find(stage) {
        Some(spec) => spec.batch_timeout,
        None => 0,
    }
}

/// Whether so many milliseconds have passed since then.
fn has_passed(from: u64, timeout: u64, time: u64) -> bool
    ensures { result ≡ nat_le (from + timeout) time }
{
    from <= time && timeout <= time - from
}

/// Whether the open batch that begins with message `n` has waited so long.
fn is_late(past: &Past<'_>, stage: StageNo, n: u32) -> bool
    ensures { result ≡ nat_le (gathered_at_in (history past.now.steps.now) n + batch_timeout_in (spec_of past.now.topology.now stage)) (now_in (history past.now.steps.now)) }
{
    let timeout = batch_timeout(past.topology, stage);
    has_passed(gathered_at(past.steps, n), timeout, now(past.steps))
}

/// The first trigger that holds of an open batch.
fn trigger_of(
    flow: &Flow<'_>,
    stage: StageNo,
    numbers: &[u32],
) -> Result<Option<Trigger>, AllocError>
    requires { TablesStand (topology_of flow.now) (history_of flow.now) flow.now.tables.now }
    ensures { IfOk result (λ trigger. trigger ≡ trigger_of_in (topology_of flow.now) (history_of flow.now) stage numbers.now) }
{
    let flush = ends_in_flush(flow.past.steps, numbers)?;
    let dry = is_dry(flow, stage)?;
    if numbers.len() as u64 == u64::from(batch_size(flow.past.topology, stage)) {
        Ok(Some(Trigger::Size))
    } else if flush || dry {
        Ok(Some(Trigger::Flush))
    } else if is_late(&flow.past, stage, first(numbers)) {
        Ok(Some(Trigger::Timeout))
    } else {
        Ok(None)
    }
}

/// Whether the trigger that holds is this one.
fn same_trigger(held: Option<Trigger>, trigger: Trigger) -> bool
    ensures { result ≡ same_trigger_in held trigger }
{
    match (held, trigger) {
        (Some(Trigger::Size), Trigger::Size) => true,
        (Some(Trigger::Flush), Trigger::Flush) => true,
        (Some(Trigger::Timeout), Trigger::Timeout) => true,
        _ => false,
    }
}

/// Whether the batcher may close the open batch that begins with this message.
pub fn may_close(
    flow: &Flow<'_>,
    stage: StageNo,
    from: u32,
    trigger: Trigger,
) -> Result<bool, AllocError>
    requires lives { LivesStand (topology_of flow.now) (history_of flow.now) flow.now.past.lives.now }
    requires tables { TablesStand (topology_of flow.now) (history_of flow.now) flow.now.tables.now }
    ensures { IfOk result (λ may. may ≡ may_close_in (topology_of flow.now) (history_of flow.now) stage from trigger) }
{
    let open = closing_now(flow, stage, from)?;
    let numbers = open.as_slice();
    let holds = same_trigger(trigger_of(flow, stage, numbers)?, trigger);
    let live = flow.past.is_live(stage) && is_batcher(flow.past.topology, stage);
    Ok(live && (1 <= from && (from == first(numbers) && holds)))
}
