//! The places after one more step.

ghost use Rattle.std.specs.Prelude.{◌≡◌, ◌++◌, IfOk, length, replicate};
ghost use Rattle.pipe_types.specs.Stages.{spec_of};
ghost use Rattle.pipe_model.specs.{History.{history, accepted as accepted_in}, Lives.{death}, Flow.{batch_after, has_batchers_in, late_place as late_place_in}};
ghost use Rattle.plain_lives.specs.Lives.{LivesStand};
ghost use Rattle.plain_queues.specs.{Flows.{topology_of, history_of}, Views.{batch_at, view_in}};
ghost use Rattle.plain_places.specs.Rows.{each_from, places_changed};
ghost use Rattle.plain_places.specs.Moves.{moved_by, again_in, child_move as child_move_in, done_move as done_move_in, place_change as place_change_in};
ghost use Rattle.plain_places.specs.Changes.{move_of, change_of, PlacesAfter, BatchesAfter};

use crate::moves::{Move, moved};
use pipe_types::message::{Loss, Place, Reply};
use pipe_types::numbers::StageNo;
use pipe_types::step::{LateAnswer, Step};
use pipe_types::topology::Topology;
use plain_counts::{closed, crashes, has_crash, in_slot, incarnation, plus, runs_again, unit_no};
use plain_lives::Past;
use plain_queues::{BatchRow, Flow, chunk, closing, next_units};
use plain_sends::{alone, lost_over, sends_by};
use std::alloc::{AllocError, Global};

/// What a step does to the places: so many messages are accepted to one place, or they move.
#[derive(Drop)]
pub enum Change<'a> {
    Added(usize, Place),
    Moved(Move<'a>),
}

fn has_batchers(topology: &Topology, stage: StageNo) -> bool
    ensures { result ≡ has_batchers_in (spec_of topology.now stage) }
{
    match topology.stages.find(stage) {
        Some(spec) => spec.batchers > 0,
        None => false,
    }
}

/// What a killed producer still brought is lost as the producer was.
fn late_place(past: &Past<'_>, stage: StageNo, from: u32) -> Place
    requires { LivesStand past.now.topology.now (history past.now.steps.now) past.now.lives.now }
    ensures { result ≡ late_place_in stage from (death past.now.topology.now (history past.now.steps.now) stage) }
{
    match past.death(stage) {
        Some(why) => Place::Lost(Loss::Killed(stage, from, why)),
        None => Place::Waiting(stage),
    }
}

/// Whether the message that the slot ran runs again, should it have crashed.
fn again(past: &Past<'_>, stage: StageNo, ended: Option<u32>) -> Result<bool, AllocError>
    ensures { IfOk result (λ again. again ≡ again_in past.now.topology.now (history past.now.steps.now) stage ended) }
{
    match ended {
        Some(m) => {
            let count = crashes(past.steps, m)?;
            Ok(runs_again(past.topology.stages.find(stage), count))
        }
        None => Ok(false),
    }
}

/// The end of a child.
fn child_move<'a>(
    past: &Past<'_>,
    stage: StageNo,
    slot: u16,
    reply: &'a Reply,
) -> Result<Move<'a>, AllocError>
    ensures { IfOk result (λ moves. move_of moves ≡ child_move_in past.now.topology.now (history past.now.steps.now) stage slot reply.now) }
{
    let ended = in_slot(past.steps, stage, slot);
    let again = again(past, stage, ended)?;
    let from = unit_no(incarnation(past.steps, stage)?)?;
    Ok(Move::ChildEnded(again, ended, stage, from, reply))
}

/// The replies to a chunk.
fn done_move<'a>(
    flow: &Flow<'_>,
    stage: StageNo,
    replies: &'a [Reply],
) -> Result<Move<'a>, AllocError>
    ensures { IfOk result (λ moves. move_of moves ≡ done_move_in (topology_of flow.now) (view_in flow.now.tables.now) stage replies.now) }
{
    if has_crash(replies) {
        return Ok(Move::Kept);
    }
    let has = has_batchers(flow.past.topology, stage);
    let units = chunk(flow, stage)?;
    Ok(Move::Answered(has, units, replies, stage))
}

/// What a step does to the places, where these are the batches after it.
fn place_change<'a>(
    flow: &Flow<'_>,
    rows: &'a [BatchRow],
    step: &'a Step,
) -> Result<Change<'a>, AllocError>
    requires lives { LivesStand (topology_of flow.now) (history_of flow.now) flow.now.past.lives.now }
    requires batches { batch_at rows.now ≡ batch_after (topology_of flow.now) (history_of flow.now) (view_in flow.now.tables.now) step.now }
    ensures { IfOk result (λ change. change_of change ≡ place_change_in (topology_of flow.now) (history_of flow.now) (view_in flow.now.tables.now) step.now) }
{
    match step {
        Step::Accept { stage, records } => Ok(Change::Added(
            records.as_slice().len(),
            Place::Waiting(*stage),
        )),
        Step::Late {
            stage,
            incarnation,
            answer: LateAnswer::Records(records),
            ..
        } => Ok(Change::Added(
            records.as_slice().len(),
            late_place(&flow.past, *stage, *incarnation),
        )),
        Step::Dispatch { stage } => {
            let sent = sends_by(flow, *stage)?;
            let over = lost_over(flow, *stage)?;
            let alone = alone(flow, *stage)?;
            Ok(Change::Moved(Move::Dispatched(sent, over, alone, *stage)))
        }
        Step::Take { stage, sub, k } => {
            let units = next_units(flow, *stage, *sub, *k)?;
            Ok(Change::Moved(Move::Taken(units, *stage)))
        }
        Step::Done { stage, replies } => {
            let moves = done_move(flow, *stage, replies.as_slice())?;
            Ok(Change::Moved(moves))
        }
        Step::Gather { stage, no } => Ok(Change::Moved(Move::Gathered(*stage, no.0))),
        Step::Close { stage, first, .. } => {
            let numbers = closing(flow, *stage, first.0)?;
            let batch = unit_no(plus(closed(flow.past.steps)?, 1)?)?;
            Ok(Change::Moved(Move::PutInBatch(numbers, *stage, batch)))
        }
        Step::Wrote { .. } => Ok(Change::Moved(Move::ByBatch(rows))),
        Step::Child { stage, no, .. } => {
            let units = Vec::from_slice(flow.alloc, &[no.0])?;
            Ok(Change::Moved(Move::Taken(units, *stage)))
        }
        Step::ChildEnd { stage, slot, reply } => {
            let moves = child_move(&flow.past, *stage, *slot, reply)?;
            Ok(Change::Moved(moves))
        }
        Step::Kill { .. } => {
            let set = flow.past.kill_set(flow.alloc, step)?;
            Ok(Change::Moved(Move::Killed(set, rows)))
        }
        Step::Halt => {
            let set = flow.past.kill_set(flow.alloc, step)?;
            Ok(Change::Moved(Move::Killed(set, rows)))
        }
        _ => Ok(Change::Moved(Move::Kept)),
    }
}

/// The places after their moves.
fn all_moved(flow: &Flow<'_>, moves: &Move<'_>, places: &[Place]) -> Result<Vec<Place>, AllocError>
    ensures { IfOk result (λ after. after.items ≡ each_from (moved_by (history_of flow.now) (move_of moves.now)) 1 places.now) }
{
    let mut after = Vec::new(flow.alloc);
    for i in 0..places.len() {
        let n = unit_no(i as u64 + 1)?;
        let place = moved(flow.past.steps, moves, n, places[i])?;
        after.push(place)?;
    }
    Ok(after)
}

/// The places, and behind them so many more messages at one place.
fn with_more(
    alloc: Global,
    places: &[Place],
    count: usize,
    new: &Place,
) -> Result<Vec<Place>, AllocError>
    ensures { IfOk result (λ after. after.items ≡ places.now ++ replicate count new.now) }
{
    let mut after = Vec::from_slice(alloc, places)?;
    for _more in 0..count {
        after.push(*new)?;
    }
    Ok(after)
}

/// The places after a change.
fn places_by(
    flow: &Flow<'_>,
    change: &Change<'_>,
    places: &[Place],
) -> Result<Vec<Place>, AllocError>
    ensures { IfOk result (λ after. after.items ≡ places_changed (history_of flow.now) (change_of change.now) places.now) }
{
    match change {
        Change::Added(count, new) => with_more(flow.alloc, places, *count, new),
        Change::Moved(moves) => all_moved(flow, moves, places),
    }
}

/// The places after one more step, where these are the batches after it.
pub fn places_after(
    flow: &Flow<'_>,
    rows: &[BatchRow],
    step: &Step,
) -> Result<Vec<Place>, AllocError>
    requires lives { LivesStand (topology_of flow.now) (history_of flow.now) flow.now.past.lives.now }
    requires batches { BatchesAfter (topology_of flow.now) (history_of flow.now) (view_in flow.now.tables.now) step.now rows.now }
    requires accepted { length flow.now.tables.now.places.items ≡ accepted_in (history_of flow.now) }
    ensures { IfOk result (λ places. PlacesAfter (topology_of flow.now) (history_of flow.now) (view_in flow.now.tables.now) step.now places.items) }
{
    let change = place_change(flow, rows, step)?;
    places_by(flow, &change, flow.tables.places.as_slice())
}
