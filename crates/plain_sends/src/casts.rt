//! What a batcher that broadcasts sends and serves.

ghost use Rattle.std.specs.Prelude.{◌≡◌, ◌++◌, ◌∷◌, [], ◌&&◌, if◌then◌else◌, IfOk, filter, count_by, option_copied};
ghost use Rattle.pipe_types.specs.Handlers.{begins_with};
ghost use Rattle.pipe_types.specs.Dispatchers.{ByBroadcast, fit_all as fit_all_in, has_rooms as has_rooms_in, on_each, sends as sends_in, serves as serves_in};
ghost use Rattle.pipe_model.specs.{History.{history}, Content.{content as content_in, key_in}, Flow.{select_in, key_by, picks_by}};
ghost use Rattle.plain_queues.specs.{Flows.{topology_of, history_of}, Views.{view_in}};
ghost use Rattle.plain_sends.specs.Casts.{with_selves};

use crate::partitions::first_of_batch;
use pipe_types::numbers::SubNo;
use pipe_types::room::{Room, Sent};
use pipe_types::step::Step;
use pipe_types::topology::StageSpec;
use plain_dispatch::has_rooms;
use plain_queues::{Flow, key_of};
use std::alloc::AllocError;

/// What a dispatch sends, each unit by its number, and which of the waiting units it serves.
#[derive(Drop)]
pub(crate) struct Dispatched {
    pub sent: Vec<Sent>,
    pub served: Vec<u32>,
}

/// Whether the key of the message begins with the text.
fn does_begin(steps: &[Step], n: u32, text: &[u8]) -> Result<bool, AllocError>
    ensures { IfOk result (λ begins. begins ≡ begins_with text.now (key_in (content_in (history steps.now) n))) }
{
    let key = key_of(steps, n)?;
    Ok(key.starts_with(text))
}

/// Whether the key of the batch begins with the text of the stage, and so where there is no stage.
fn selects(flow: &Flow<'_>, spec: Option<&StageSpec>, batch: u32) -> Result<bool, AllocError>
    ensures { IfOk result (λ picks. picks ≡ begins_with (select_in (option_copied spec.entry)) (key_by (history_of flow.now) (view_in flow.now.tables.now) batch)) }
{
    let none: [u8; 0] = [];
    match spec {
        Some(spec) => does_begin(
            flow.past.steps,
            first_of_batch(flow.tables, batch),
            spec.select.as_slice(),
        ),
        None => does_begin(
            flow.past.steps,
            first_of_batch(flow.tables, batch),
            none.as_slice(),
        ),
    }
}

/// Whether the subscription picks the batch: its key begins with the consumer's text.
fn picks(flow: &Flow<'_>, batch: u32, sub: SubNo) -> Result<bool, AllocError>
    ensures { IfOk result (λ picks. picks ≡ picks_by (topology_of flow.now) (history_of flow.now) (view_in flow.now.tables.now) batch sub) }
{
    selects(flow, flow.past.topology.stages.find(sub.consumer), batch)
}

/// How many of these batches the subscription picks.
fn picked(flow: &Flow<'_>, batches: &[u32], sub: SubNo) -> Result<usize, AllocError>
    ensures { IfOk result (λ n. n ≡ count_by (λ b. picks_by (topology_of flow.now) (history_of flow.now) (view_in flow.now.tables.now) b sub) batches.now) }
{
    let mut count = 0;
    for batch in batches {
        let is_picked = picks(flow, *batch, sub)?;
        if is_picked {
            count += 1;
        }
    }
    Ok(count)
}

/// Whether no room's subscription picks more of these batches than it asked for.
fn do_fit(flow: &Flow<'_>, rooms: &[Room], batches: &[u32]) -> Result<bool, AllocError>
    ensures { IfOk result (λ fit. fit ≡ fit_all_in (picks_by (topology_of flow.now) (history_of flow.now) (view_in flow.now.tables.now)) rooms.now batches.now) }
{
    for room in rooms {
        let count = picked(flow, batches, room.sub)?;
        if count > room.left as usize {
            return Ok(false);
        }
    }
    Ok(true)
}

/// Puts the batch behind the others, on the subscription of each room that picks it.
fn push_picked(
    sent: Vec<Sent>,
    flow: &Flow<'_>,
    rooms: &[Room],
    batch: u32,
) -> Result<Vec<Sent>, AllocError>
    ensures { IfOk result (λ more. more.items ≡ sent.items ++ on_each batch (filter (λ r. picks_by (topology_of flow.now) (history_of flow.now) (view_in flow.now.tables.now) batch r.sub) rooms.now)) }
{
    let mut more = sent;
    for room in rooms {
        let is_picked = picks(flow, batch, room.sub)?;
        if is_picked {
            more.push(Sent {
                unit: batch,
                sub: room.sub,
            })?;
        }
    }
    Ok(more)
}

/// Puts the last of these batches behind the others, on the subscription of each room that picks it, where they fit.
fn cast_last(
    sent: Vec<Sent>,
    flow: &Flow<'_>,
    rooms: &[Room],
    batches: &[u32],
    last: u32,
) -> Result<Vec<Sent>, AllocError>
    ensures { IfOk result (λ more. more.items ≡ sent.items ++ (if fit_all_in (picks_by (topology_of flow.now) (history_of flow.now) (view_in flow.now.tables.now)) rooms.now batches.now then on_each last (filter (λ r. picks_by (topology_of flow.now) (history_of flow.now) (view_in flow.now.tables.now) last r.sub) rooms.now) else [])) }
{
    let fit = do_fit(flow, rooms, batches)?;
    if !fit {
        return Ok(sent);
    }
    let more = push_picked(sent, flow, rooms, last)?;
    Ok(more)
}

/// Whether a broadcast serves the last of these batches.
fn is_last_served(flow: &Flow<'_>, rooms: &[Room], batches: &[u32]) -> Result<bool, AllocError>
    ensures { IfOk result (λ served. served ≡ (has_rooms_in rooms.now && fit_all_in (picks_by (topology_of flow.now) (history_of flow.now) (view_in flow.now.tables.now)) rooms.now batches.now)) }
{
    let fit = do_fit(flow, rooms, batches)?;
    Ok(has_rooms(rooms) && fit)
}

/// Puts the last of these batches behind the others, if a broadcast serves it.
fn serve_last(
    served: Vec<u32>,
    flow: &Flow<'_>,
    rooms: &[Room],
    batches: &[u32],
    last: u32,
) -> Result<Vec<u32>, AllocError>
    ensures { IfOk result (λ more. more.items ≡ served.items ++ (if has_rooms_in rooms.now && fit_all_in (picks_by (topology_of flow.now) (history_of flow.now) (view_in flow.now.tables.now)) rooms.now batches.now then last ∷ [] else [])) }
{
    let mut more = served;
    let is_last = is_last_served(flow, rooms, batches)?;
    if !is_last {
        return Ok(more);
    }
    more.push(last)?;
    Ok(more)
}

/// What a broadcast sends of these batches, by batch and then by room, and those of them that it serves, in order: none where
/// there is no room.
pub(crate) fn cast(
    flow: &Flow<'_>,
    rooms: &[Room],
    batches: &[u32],
) -> Result<Dispatched, AllocError>
    ensures sent { IfOk result (λ all. all.sent.items ≡ sends_in (ByBroadcast (picks_by (topology_of flow.now) (history_of flow.now) (view_in flow.now.tables.now))) rooms.now (with_selves batches.now)) }
    ensures served { IfOk result (λ all. all.served.items ≡ serves_in (ByBroadcast (picks_by (topology_of flow.now) (history_of flow.now) (view_in flow.now.tables.now))) rooms.now (with_selves batches.now)) }
{
    let mut sent = Vec::new(flow.alloc);
    let mut served = Vec::new(flow.alloc);
    for i in 0..batches.len() {
        let more_sent = cast_last(sent, flow, rooms, &batches[..i + 1], batches[i])?;
        let more_served = serve_last(served, flow, rooms, &batches[..i + 1], batches[i])?;
        sent = more_sent;
        served = more_served;
    }
    Ok(Dispatched { sent, served })
}
