//! The queues of a history, read off tables that stand for it.

ghost use Rattle.std.specs.Prelude.{◌≡◌, IfOk};
ghost use Rattle.pipe_model.specs.Flow.{view_of, waiting, inbox, chunk_by, closing, deliveries as deliveries_in, lost_over as lost_over_in, open_demand as open_demand_in, room as room_in, place as place_in};
ghost use Rattle.pipe_model.specs.Legal.{may_dispatch as may_dispatch_in};
ghost use Rattle.plain_lives.specs.Lives.{LivesStand};
ghost use Rattle.plain_queues.specs.Flows.{topology_of, history_of};
ghost use Rattle.plain_places.specs.Standing.{TablesStand};

use pipe_types::message::Place;
use pipe_types::numbers::{StageNo, SubNo};
use pipe_types::room::Sent;
use plain_queues::Flow;
use std::alloc::AllocError;

/// Where message `n` stands, and none where it was not accepted.
pub fn place_now(flow: &Flow<'_>, n: u32) -> Option<Place>
    requires { TablesStand (topology_of flow.now) (history_of flow.now) flow.now.tables.now }
    ensures { result ≡ place_in (topology_of flow.now) (history_of flow.now) n }
{
    plain_queues::place_of(flow.tables, n)
}

/// The units that wait in the stage, in order of arrival.
pub fn waiting_now(flow: &Flow<'_>, stage: StageNo) -> Result<Vec<u32>, AllocError>
    requires { TablesStand (topology_of flow.now) (history_of flow.now) flow.now.tables.now }
    ensures { IfOk result (λ units. units.items ≡ waiting (topology_of flow.now) (history_of flow.now) stage) }
{
    plain_queues::waiting(flow, stage)
}

/// The units in the consumer's inbox, in order of arrival, each with its subscription.
pub fn inbox_now(flow: &Flow<'_>, consumer: StageNo) -> Result<Vec<(SubNo, u32)>, AllocError>
    requires { TablesStand (topology_of flow.now) (history_of flow.now) flow.now.tables.now }
    ensures { IfOk result (λ units. units.items ≡ inbox (topology_of flow.now) (history_of flow.now) consumer) }
{
    plain_queues::inbox(flow, consumer)
}

/// The messages that run in the stage, in the order in which they were sent to it.
pub fn chunk_now(flow: &Flow<'_>, stage: StageNo) -> Result<Vec<u32>, AllocError>
    requires { TablesStand (topology_of flow.now) (history_of flow.now) flow.now.tables.now }
    ensures { IfOk result (λ units. units.items ≡ chunk_by (view_of (topology_of flow.now) (history_of flow.now)) stage) }
{
    plain_queues::chunk(flow, stage)
}

/// The messages gathered in the batcher under the key of message `n`, in order.
pub fn closing_now(flow: &Flow<'_>, stage: StageNo, n: u32) -> Result<Vec<u32>, AllocError>
    requires { TablesStand (topology_of flow.now) (history_of flow.now) flow.now.tables.now }
    ensures { IfOk result (λ units. units.items ≡ closing (history_of flow.now) (view_of (topology_of flow.now) (history_of flow.now)) stage n) }
{
    plain_queues::closing(flow, stage, n)
}

/// What a dispatch of the stage sends.
pub fn deliveries_now(flow: &Flow<'_>, stage: StageNo) -> Result<Vec<Sent>, AllocError>
    requires lives { LivesStand (topology_of flow.now) (history_of flow.now) flow.now.past.lives.now }
    requires tables { TablesStand (topology_of flow.now) (history_of flow.now) flow.now.tables.now }
    ensures { IfOk result (λ sent. sent.items ≡ deliveries_in (topology_of flow.now) (history_of flow.now) stage) }
{
    plain_sends::sends_by(flow, stage)
}

/// The waiting units that a dispatch of the stage loses over its buffer's size.
pub fn lost_over_now(flow: &Flow<'_>, stage: StageNo) -> Result<Vec<u32>, AllocError>
    requires lives { LivesStand (topology_of flow.now) (history_of flow.now) flow.now.past.lives.now }
    requires tables { TablesStand (topology_of flow.now) (history_of flow.now) flow.now.tables.now }
    ensures { IfOk result (λ lost. lost.items ≡ lost_over_in (topology_of flow.now) (history_of flow.now) (view_of (topology_of flow.now) (history_of flow.now)) stage) }
{
    plain_sends::lost_over(flow, stage)
}

/// Whether the stage is live, and a dispatch of it sends something, serves a batch that nobody picks, or loses what is over
/// the size.
pub fn may_dispatch_now(flow: &Flow<'_>, stage: StageNo) -> Result<bool, AllocError>
    requires lives { LivesStand (topology_of flow.now) (history_of flow.now) flow.now.past.lives.now }
    requires tables { TablesStand (topology_of flow.now) (history_of flow.now) flow.now.tables.now }
    ensures { IfOk result (λ may. may ≡ may_dispatch_in (topology_of flow.now) (history_of flow.now) stage) }
{
    plain_sends::may_dispatch(flow, stage)
}

/// What was asked and not sent yet, and 0 on a closed subscription.
pub fn open_demand_now(flow: &Flow<'_>, sub: SubNo) -> Result<u64, AllocError>
    requires lives { LivesStand (topology_of flow.now) (history_of flow.now) flow.now.past.lives.now }
    requires tables { TablesStand (topology_of flow.now) (history_of flow.now) flow.now.tables.now }
    ensures { IfOk result (λ n. n ≡ open_demand_in (topology_of flow.now) (history_of flow.now) sub) }
{
    plain_sends::open_demand(flow, sub)
}

/// The open demand of the live subscriptions on the stage.
pub fn room_now(flow: &Flow<'_>, stage: StageNo) -> Result<u64, AllocError>
    requires lives { LivesStand (topology_of flow.now) (history_of flow.now) flow.now.past.lives.now }
    requires tables { TablesStand (topology_of flow.now) (history_of flow.now) flow.now.tables.now }
    ensures { IfOk result (λ n. n ≡ room_in (topology_of flow.now) (history_of flow.now) stage) }
{
    plain_sends::room(flow, stage)
}
