//! Takes of units out of an inbox.

ghost use Rattle.std.specs.Prelude.{◌≡◌, ◌-◌, ◌&&◌, ◌||◌, ◌==◌, IfOk, not, length, nat_le};
ghost use Rattle.pipe_types.specs.Stages.{spec_of};
ghost use Rattle.pipe_model.specs.Flow.{inbox as inbox_in, units_on as units_on_in};
ghost use Rattle.pipe_model.specs.Legal.{feeds_batchers as feeds_batchers_in, first_sub as first_sub_in, first_unit as first_unit_in, chunk_size as chunk_size_in, has_room as has_room_in, may_take as may_take_in};
ghost use Rattle.plain_lives.specs.Lives.{LivesStand};
ghost use Rattle.plain_queues.specs.Flows.{topology_of, history_of};
ghost use Rattle.plain_places.specs.Standing.{TablesStand};

use pipe_types::numbers::{Post, StageNo, SubNo};
use pipe_types::topology::Topology;
use plain_counts::{is_out, same_sub, takes};
use plain_places::{inbox_now, room_now, waiting_now};
use plain_queues::{Flow, units_on};
use std::alloc::AllocError;

/// Whether the stage sends to batchers.
fn feeds_batchers(topology: &Topology, stage: StageNo) -> bool
    ensures { result ≡ feeds_batchers_in (spec_of topology.now stage) }
{
    match topology.stages.find(stage) {
        Some(spec) => 0 < spec.batchers,
        None => false,
    }
}

/// Whether the first unit came on this subscription.
fn is_first_on(units: &[(SubNo, u32)], sub: SubNo) -> bool
    ensures { result ≡ first_sub_in units.now sub }
{
    match units.first() {
        Some(unit) => same_sub(unit.0, sub),
        None => false,
    }
}

/// The first unit of an inbox, or 0.
pub(crate) fn first_unit(units: &[(SubNo, u32)]) -> u32
    ensures { result ≡ first_unit_in units.now }
{
    match units.first() {
        Some(unit) => unit.1,
        None => 0,
    }
}

/// How many of `n` units the stage takes at once.
fn chunk_size(topology: &Topology, stage: StageNo, n: u64) -> u64
    ensures { result ≡ chunk_size_in (spec_of topology.now stage) n }
{
    match topology.stages.find(stage) {
        Some(spec) => u64::from(spec.max.saturating_sub(spec.min)).min(n),
        None => 0,
    }
}

/// Whether a take of `k` units of the subscription takes what the stage may take at once.
fn is_chunk(flow: &Flow<'_>, stage: StageNo, sub: SubNo, k: u32) -> Result<bool, AllocError>
    requires { TablesStand (topology_of flow.now) (history_of flow.now) flow.now.tables.now }
    ensures { IfOk result (λ is. is ≡ (first_sub_in (inbox_in (topology_of flow.now) (history_of flow.now) stage) sub
        && (nat_le 1 k && k == chunk_size_in (spec_of (topology_of flow.now) stage) (length (units_on_in sub (inbox_in (topology_of flow.now) (history_of flow.now) stage)))))) }
{
    let inbox = inbox_now(flow, stage)?;
    let units = inbox.as_slice();
    let on = units_on(flow.alloc, sub, units)?;
    let most = chunk_size(flow.past.topology, stage, on.len() as u64);
    Ok(is_first_on(units, sub) && (1 <= k && u64::from(k) == most))
}

/// Whether the subscribers of the stage have asked for more than waits in it.
pub(crate) fn has_room(flow: &Flow<'_>, stage: StageNo) -> Result<bool, AllocError>
    requires lives { LivesStand (topology_of flow.now) (history_of flow.now) flow.now.past.lives.now }
    requires tables { TablesStand (topology_of flow.now) (history_of flow.now) flow.now.tables.now }
    ensures { IfOk result (λ has. has ≡ has_room_in (topology_of flow.now) (history_of flow.now) stage) }
{
    let waits = waiting_now(flow, stage)?;
    let room = room_now(flow, stage)?;
    Ok((waits.len() as u64) < room)
}

/// Whether the stage sends to no batchers, or its subscribers have asked for more than waits in it.
fn has_space(flow: &Flow<'_>, stage: StageNo) -> Result<bool, AllocError>
    requires lives { LivesStand (topology_of flow.now) (history_of flow.now) flow.now.past.lives.now }
    requires tables { TablesStand (topology_of flow.now) (history_of flow.now) flow.now.tables.now }
    ensures { IfOk result (λ has. has ≡ (not (feeds_batchers_in (spec_of (topology_of flow.now) stage)) || has_room_in (topology_of flow.now) (history_of flow.now) stage)) }
{
    if feeds_batchers(flow.past.topology, stage) {
        has_room(flow, stage)
    } else {
        Ok(true)
    }
}

/// Whether the stage may take `k` units of the subscription.
pub fn may_take(flow: &Flow<'_>, stage: StageNo, sub: SubNo, k: u32) -> Result<bool, AllocError>
    requires lives { LivesStand (topology_of flow.now) (history_of flow.now) flow.now.past.lives.now }
    requires tables { TablesStand (topology_of flow.now) (history_of flow.now) flow.now.tables.now }
    ensures { IfOk result (λ may. may ≡ may_take_in (topology_of flow.now) (history_of flow.now) stage sub k) }
{
    let chunk = is_chunk(flow, stage, sub, k)?;
    let space = has_space(flow, stage)?;
    let live = flow.past.is_live(stage) && takes(flow.past.topology, stage);
    let out = is_out(flow.past.steps, Post { stage, slot: 0 });
    Ok(live && (!out && (chunk && space)))
}
