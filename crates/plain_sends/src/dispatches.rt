//! What a dispatch sends, and what it loses over a buffer's size.

ghost use Rattle.std.specs.Prelude.{◌≡◌, ◌&&◌, ◌||◌, not, IfOk, Some, map, option_copied};
ghost use Rattle.pipe_types.specs.Stages.{spec_of};
ghost use Rattle.pipe_model.specs.Lives.{is_live as is_live_in};
ghost use Rattle.pipe_model.specs.Flow.{is_empty, kind_in, partition_in, sends_by as sends_by_in, served_by as served_by_in, alone_by, subs_of, unsent as unsent_in, over_in, lost_over as lost_over_in};
ghost use Rattle.plain_lives.specs.Lives.{LivesStand};
ghost use Rattle.plain_queues.specs.{Flows.{topology_of, history_of}, Views.{view_in}};
ghost use Rattle.plain_sends.specs.Casts.{is_cast as is_cast_in};

use crate::casts::{Dispatched, cast};
use crate::demand::rooms;
use crate::partitions::partition;
use pipe_types::numbers::StageNo;
use pipe_types::room::Sent;
use pipe_types::topology::{Dispatch, Keep, StageSpec, Topology};
use plain_dispatch::{sends, serves};
use plain_queues::{Flow, is_batcher_stage, waiting};
use std::alloc::{AllocError, Global};

fn kind_of(topology: &Topology, stage: StageNo) -> Dispatch
    ensures { result ≡ kind_in (spec_of topology.now stage) }
{
    match topology.stages.find(stage) {
        Some(spec) => spec.dispatch,
        None => Dispatch::Demand,
    }
}

/// These units, each with its partition.
fn with_parts(flow: &Flow<'_>, stage: StageNo, units: &[u32]) -> Result<Vec<(u32, u32)>, AllocError>
    ensures { IfOk result (λ all. all.items ≡ map (λ n. (n, partition_in (history_of flow.now) (view_in flow.now.tables.now) (spec_of (topology_of flow.now) stage) n)) units.now) }
{
    let mut all = Vec::new(flow.alloc);
    for n in units {
        let part = partition(flow, flow.past.topology.stages.find(stage), *n)?;
        all.push((*n, part))?;
    }
    Ok(all)
}

/// What a dispatch of the stage sends, and what it serves.
fn dispatch_of(flow: &Flow<'_>, stage: StageNo) -> Result<Dispatched, AllocError>
    requires { LivesStand (topology_of flow.now) (history_of flow.now) flow.now.past.lives.now }
    ensures sent { IfOk result (λ all. all.sent.items ≡ sends_by_in (topology_of flow.now) (history_of flow.now) (view_in flow.now.tables.now) stage) }
    ensures served { IfOk result (λ all. all.served.items ≡ served_by_in (topology_of flow.now) (history_of flow.now) (view_in flow.now.tables.now) stage) }
{
    let rooms = rooms(flow, stage)?;
    let waiting = waiting(flow, stage)?;
    let here = rooms.as_slice();
    let units = waiting.as_slice();
    let kind = kind_of(flow.past.topology, stage);
    if is_cast(kind) {
        return cast(flow, here, units);
    }
    let marked = with_parts(flow, stage, units)?;
    let marks = marked.as_slice();
    let sent = sends(flow.alloc, kind, here, marks)?;
    let served = serves(flow.alloc, kind, here, marks)?;
    Ok(Dispatched { sent, served })
}

/// What a dispatch of the stage sends, each unit by its number.
pub fn sends_by(flow: &Flow<'_>, stage: StageNo) -> Result<Vec<Sent>, AllocError>
    requires { LivesStand (topology_of flow.now) (history_of flow.now) flow.now.past.lives.now }
    ensures { IfOk result (λ sent. sent.items ≡ sends_by_in (topology_of flow.now) (history_of flow.now) (view_in flow.now.tables.now) stage) }
{
    let Dispatched {
        sent,
        served: _served,
    } = dispatch_of(flow, stage)?;
    Ok(sent)
}

fn is_cast(kind: Dispatch) -> bool
    ensures { result ≡ is_cast_in kind }
{
    matches!(kind, Dispatch::Broadcast)
}

/// The batches that a dispatch of the stage serves without a leg.
pub fn alone(flow: &Flow<'_>, stage: StageNo) -> Result<Vec<u32>, AllocError>
    requires { LivesStand (topology_of flow.now) (history_of flow.now) flow.now.past.lives.now }
    ensures { IfOk result (λ alone. alone.items ≡ alone_by (topology_of flow.now) (history_of flow.now) (view_in flow.now.tables.now) stage) }
{
    if !is_batcher_stage(flow.past.topology, stage) {
        return Ok(Vec::new(flow.alloc));
    }
    let Dispatched { sent, served } = dispatch_of(flow, stage)?;
    unsent(flow.alloc, sent.as_slice(), served.as_slice())
}

fn is_unsent(sent: &[Sent], n: u32) -> bool
    ensures { result ≡ is_empty (subs_of sent.now n) }
{
    for one in sent {
        if one.unit == n {
            return false;
        }
    }
    true
}

/// The units that are not sent.
fn unsent(alloc: Global, sent: &[Sent], units: &[u32]) -> Result<Vec<u32>, AllocError>
    ensures { IfOk result (λ left. left.items ≡ unsent_in sent.now units.now) }
{
    let mut left = Vec::new(alloc);
    for n in units {
        if is_unsent(sent, *n) {
            left.push(*n)?;
        }
    }
    Ok(left)
}

/// What is over the size: the oldest where the last are kept, the newest where the first are.
fn over_size<'a>(spec: &StageSpec, units: &'a [u32]) -> &'a [u32]
    ensures { result.now ≡ over_in (Some spec.now) units.now }
{
    let Some(size) = spec.size else {
        return &units[..0];
    };
    let size = size as usize;
    if units.len() <= size {
        return &units[..0];
    }
    match spec.keep {
        Keep::Last => &units[..units.len() - size],
        Keep::First => &units[size..],
    }
}

fn over(alloc: Global, spec: Option<&StageSpec>, units: &[u32]) -> Result<Vec<u32>, AllocError>
    ensures { IfOk result (λ lost. lost.items ≡ over_in (option_copied spec.entry) units.now) }
{
    match spec {
        Some(spec) => Vec::from_slice(alloc, over_size(spec, units)),
        None => Ok(Vec::new(alloc)),
    }
}

/// The waiting units that a dispatch of the stage loses over its buffer's size.
pub fn lost_over(flow: &Flow<'_>, stage: StageNo) -> Result<Vec<u32>, AllocError>
    requires { LivesStand (topology_of flow.now) (history_of flow.now) flow.now.past.lives.now }
    ensures { IfOk result (λ lost. lost.items ≡ lost_over_in (topology_of flow.now) (history_of flow.now) (view_in flow.now.tables.now) stage) }
{
    let sent = sends_by(flow, stage)?;
    let waiting = waiting(flow, stage)?;
    let left = unsent(flow.alloc, sent.as_slice(), waiting.as_slice())?;
    over(
        flow.alloc,
        flow.past.topology.stages.find(stage),
        left.as_slice(),
    )
}

/// Whether a dispatch of the stage sends something, or serves a batch that nobody picks, or loses what is over the size.
pub fn may_dispatch(flow: &Flow<'_>, stage: StageNo) -> Result<bool, AllocError>
    requires { LivesStand (topology_of flow.now) (history_of flow.now) flow.now.past.lives.now }
    ensures { IfOk result (λ may. may ≡ is_live_in (topology_of flow.now) (history_of flow.now) stage
        && (not (is_empty (sends_by_in (topology_of flow.now) (history_of flow.now) (view_in flow.now.tables.now) stage))
        || (not (is_empty (alone_by (topology_of flow.now) (history_of flow.now) (view_in flow.now.tables.now) stage))
        || not (is_empty (lost_over_in (topology_of flow.now) (history_of flow.now) (view_in flow.now.tables.now) stage))))) }
{
    let sent = sends_by(flow, stage)?;
    let alone = alone(flow, stage)?;
    let lost = lost_over(flow, stage)?;
    Ok(flow.past.is_live(stage) && (!sent.is_empty() || (!alone.is_empty() || !lost.is_empty())))
}
