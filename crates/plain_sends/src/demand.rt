//! The open demand of subscriptions.

ghost use Rattle.std.specs.Prelude.{◌≡◌, ◌-◌, IfOk};
ghost use Rattle.pipe_types.specs.Stages.{spec_of};
ghost use Rattle.pipe_model.specs.{History.{asked as asked_in}, Lives.{live_subs as live_subs_in}, Flow.{index_in as index_in_model, rooms_by, count_on}};
ghost use Rattle.plain_lives.specs.Lives.{LivesStand};
ghost use Rattle.plain_queues.specs.{Flows.{topology_of, history_of}, Views.{view_in}};
ghost use Rattle.plain_sends.specs.Rooms.{open_by, sum_by_subs, room_by};

use pipe_types::numbers::{StageNo, SubNo};
use pipe_types::room::Room;
use pipe_types::topology::Topology;
use plain_counts::{asked, plus, unit_no};
use plain_queues::{Flow, sent_on};
use std::alloc::AllocError;

fn index_of(topology: &Topology, stage: StageNo) -> u32
    ensures { result ≡ index_in_model (spec_of topology.now stage) }
{
    match topology.stages.find(stage) {
        Some(spec) => u32::from(spec.index),
        None => 0,
    }
}

/// What was asked on the subscription and not sent yet.
fn left_on(flow: &Flow<'_>, sub: SubNo) -> Result<u64, AllocError>
    ensures { IfOk result (λ n. n ≡ asked_in (history_of flow.now) sub - count_on flow.now.tables.now.sends.items sub) }
{
    let asked = asked(flow.past.steps, sub)?;
    let sent = sent_on(flow.tables, sub)?;
    Ok(asked.saturating_sub(sent))
}

fn room_on(flow: &Flow<'_>, sub: SubNo) -> Result<Room, AllocError>
    ensures { IfOk result (λ room. room ≡ room_by (topology_of flow.now) (history_of flow.now) (view_in flow.now.tables.now) sub) }
{
    Ok(Room {
        sub,
        part: index_of(flow.past.topology, sub.consumer),
        left: unit_no(left_on(flow, sub)?)?,
    })
}

/// The live subscriptions on the stage, each with its consumer's place in the group and its open demand.
pub fn rooms(flow: &Flow<'_>, stage: StageNo) -> Result<Vec<Room>, AllocError>
    requires { LivesStand (topology_of flow.now) (history_of flow.now) flow.now.past.lives.now }
    ensures { IfOk result (λ rooms. rooms.items ≡ rooms_by (topology_of flow.now) (history_of flow.now) (view_in flow.now.tables.now) stage) }
{
    let live = flow.past.live_subs(flow.alloc, stage)?;
    let subs = live.as_slice();
    let mut rooms = Vec::new(flow.alloc);
    for sub in subs {
        rooms.push(room_on(flow, *sub)?)?;
    }
    Ok(rooms)
}

/// What was asked and not sent yet, and 0 on a closed subscription.
pub fn open_demand(flow: &Flow<'_>, sub: SubNo) -> Result<u64, AllocError>
    requires { LivesStand (topology_of flow.now) (history_of flow.now) flow.now.past.lives.now }
    ensures { IfOk result (λ n. n ≡ open_by (topology_of flow.now) (history_of flow.now) (view_in flow.now.tables.now) sub) }
{
    let left = left_on(flow, sub)?;
    if flow.past.is_live_sub(sub)? {
        Ok(left)
    } else {
        Ok(0)
    }
}

/// The open demand of the live subscriptions on the stage.
pub fn room(flow: &Flow<'_>, stage: StageNo) -> Result<u64, AllocError>
    requires { LivesStand (topology_of flow.now) (history_of flow.now) flow.now.past.lives.now }
    ensures { IfOk result (λ n. n ≡ sum_by_subs (topology_of flow.now) (history_of flow.now) (view_in flow.now.tables.now) (live_subs_in (topology_of flow.now) (history_of flow.now) stage)) }
{
    let live = flow.past.live_subs(flow.alloc, stage)?;
    let subs = live.as_slice();
    let mut sum = 0;
    for sub in subs {
        sum = plus(sum, open_demand(flow, *sub)?)?;
    }
    Ok(sum)
}
