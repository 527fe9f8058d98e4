//! Gathering of messages, and the open batches that take them.

ghost use Rattle.std.specs.Prelude.{◌≡◌, ◌&&◌, ◌==◌, IfOk};
ghost use Rattle.pipe_types.specs.Stages.{spec_of};
ghost use Rattle.pipe_model.specs.{History.{history}, Content.{content as content_in, flush_in}, Flow.{inbox as inbox_in}};
ghost use Rattle.pipe_model.specs.Legal.{last_in, ends_in_flush as ends_in_flush_in, batch_size_in, first_unit as first_unit_in, lets_in as lets_in_model, may_gather as may_gather_in};
ghost use Rattle.plain_lives.specs.Lives.{LivesStand};
ghost use Rattle.plain_queues.specs.Flows.{topology_of, history_of};
ghost use Rattle.plain_places.specs.Standing.{TablesStand};

use crate::takes::{first_unit, has_room};
use pipe_types::numbers::StageNo;
use pipe_types::step::Step;
use pipe_types::topology::Topology;
use plain_counts::{Seen, content, is_batcher};
use plain_lives::Past;
use plain_places::{closing_now, inbox_now};
use plain_queues::Flow;
use std::alloc::AllocError;

/// Whether the message has flush mode.
fn flushes(steps: &[Step], n: u32) -> Result<bool, AllocError>
    ensures { IfOk result (λ flush. flush ≡ flush_in (content_in (history steps.now) n)) }
{
    match content(steps, n)? {
        Some(Seen::Passed(message)) => Ok(message.flush),
        Some(Seen::Accepted(_, _, _)) => Ok(false),
        None => Ok(false),
    }
}

/// The last of these numbers, or 0.
fn last(numbers: &[u32]) -> u32
    ensures { result ≡ last_in numbers.now }
{
    let mut last = 0;
    for n in numbers {
        last = *n;
    }
    last
}

/// Whether the last message of the open batch has flush mode.
pub(crate) fn ends_in_flush(steps: &[Step], numbers: &[u32]) -> Result<bool, AllocError>
    ensures { IfOk result (λ ends. ends ≡ ends_in_flush_in (history steps.now) numbers.now) }
{
    if numbers.is_empty() {
        return Ok(false);
    }
    flushes(steps, last(numbers))
}

/// How many messages a batch of the stage has at most.
pub(crate) fn batch_size(topology: &Topology, stage: StageNo) -> u32
    ensures { result ≡ batch_size_in (spec_of topology.now stage) }
{
    match topology.stages.find(stage) {
        Some(spec) => spec.batch_size,
        None => 0,
    }
}

/// Whether the open batch takes one more.
fn lets_in(past: &Past<'_>, stage: StageNo, numbers: &[u32]) -> Result<bool, AllocError>
    ensures { IfOk result (λ lets. lets ≡ lets_in_model past.now.topology.now (history past.now.steps.now) stage numbers.now) }
{
    let ends = ends_in_flush(past.steps, numbers)?;
    let size = batch_size(past.topology, stage);
    Ok((numbers.len() as u64) < u64::from(size) && !ends)
}

/// Whether the message is the first in the stage's inbox.
pub(crate) fn is_next(flow: &Flow<'_>, stage: StageNo, n: u32) -> Result<bool, AllocError>
    requires { TablesStand (topology_of flow.now) (history_of flow.now) flow.now.tables.now }
    ensures { IfOk result (λ is. is ≡ (n == first_unit_in (inbox_in (topology_of flow.now) (history_of flow.now) stage))) }
{
    let units = inbox_now(flow, stage)?;
    Ok(n == first_unit(units.as_slice()))
}

/// Whether the batcher may gather the message.
pub fn may_gather(flow: &Flow<'_>, stage: StageNo, n: u32) -> Result<bool, AllocError>
    requires lives { LivesStand (topology_of flow.now) (history_of flow.now) flow.now.past.lives.now }
    requires tables { TablesStand (topology_of flow.now) (history_of flow.now) flow.now.tables.now }
    ensures { IfOk result (λ may. may ≡ may_gather_in (topology_of flow.now) (history_of flow.now) stage n) }
{
    let next = is_next(flow, stage, n)?;
    let room = has_room(flow, stage)?;
    let open = closing_now(flow, stage, n)?;
    let lets = lets_in(&flow.past, stage, open.as_slice())?;
    let live = flow.past.is_live(stage) && is_batcher(flow.past.topology, stage);
    Ok(live && (1 <= n && (next && (room && lets))))
}
