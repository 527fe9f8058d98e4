//! The batches after one more step.

ghost use Rattle.std.specs.Prelude.{◌≡◌, IfOk, map, length};
ghost use Rattle.pipe_model.specs.{History.{closed as closed_in}, Flow.{subs_of}};
ghost use Rattle.plain_lives.specs.Lives.{LivesStand};
ghost use Rattle.plain_queues.specs.{Flows.{topology_of, history_of}, Views.{batch_of, batch_place_of, view_in}};
ghost use Rattle.plain_places.specs.{Rows.{each_from, batches_changed}, Moves.{Closed as ClosedIn, batch_place_moved, batch_moved, batch_change}};
ghost use Rattle.plain_places.specs.Changes.{row_move_of, row_change_of, BatchesAfter};

use crate::moves::is_among;
use pipe_types::message::{BatchEnd, Outcome};
use pipe_types::numbers::{StageNo, SubNo};
use pipe_types::room::Sent;
use pipe_types::step::Step;
use plain_batches::{LegChange, batch_killed, batch_on_legs, batch_sent, copy_batch_place};
use plain_counts::unit_no;
use plain_lives::Death;
use plain_queues::{BatchPlace, BatchRow, Flow, closing, next_units};
use plain_sends::{alone, sends_by};
use std::alloc::{AllocError, Global};

/// Where a step moves the batches that stand somewhere: those that are sent, taken, answered, or killed.
#[derive(Drop)]
pub enum RowMove<'a> {
    Stays,
    SentOn(Vec<Sent>, Vec<u32>, StageNo),
    TakenIn(Vec<u32>, StageNo),
    AnsweredIn(StageNo, &'a [Outcome]),
    KilledIn(Vec<Death>),
}

/// What a step does to the batches: one is closed, of these messages, or they move.
#[derive(Drop)]
pub enum RowChange<'a> {
    Closed(Vec<u32>, StageNo),
    RowsMoved(RowMove<'a>),
}

/// The subscriptions on which the unit is sent, in order.
fn subs_for(alloc: Global, sent: &[Sent], n: u32) -> Result<Vec<SubNo>, AllocError>
    ensures { IfOk result (λ subs. subs.items ≡ subs_of sent.now n) }
{
    let mut subs = Vec::new(alloc);
    for one in sent {
        if one.unit == n {
            subs.push(one.sub)?;
        }
    }
    Ok(subs)
}

/// Where batch `n`, which stands at that place, goes.
fn row_place(
    flow: &Flow<'_>,
    change: &RowMove<'_>,
    n: u32,
    place: &BatchPlace,
) -> Result<BatchPlace, AllocError>
    ensures { IfOk result (λ after. batch_place_of after ≡ batch_place_moved (history_of flow.now) (row_move_of change.now) n (batch_place_of place.now)) }
{
    match change {
        RowMove::Stays => copy_batch_place(flow.alloc, place),
        RowMove::SentOn(sent, alone, stage) => {
            let subs = subs_for(flow.alloc, sent.as_slice(), n)?;
            let is_alone = is_among(alone.as_slice(), n);
            batch_sent(flow.alloc, *stage, is_alone, subs.as_slice(), place)
        }
        RowMove::TakenIn(units, stage) => {
            if is_among(units.as_slice(), n) {
                batch_on_legs(flow.alloc, LegChange::Taken(*stage), place)
            } else {
                copy_batch_place(flow.alloc, place)
            }
        }
        RowMove::AnsweredIn(stage, outcomes) => {
            batch_on_legs(flow.alloc, LegChange::Answered(*stage, outcomes), place)
        }
        RowMove::KilledIn(set) => batch_killed(flow.alloc, set.as_slice(), flow.past.steps, place),
    }
}

fn row_after(
    flow: &Flow<'_>,
    change: &RowMove<'_>,
    n: u32,
    row: &BatchRow,
) -> Result<BatchRow, AllocError>
    ensures { IfOk result (λ after. batch_of after ≡ batch_moved (history_of flow.now) (row_move_of change.now) n (batch_of row.now)) }
{
    let numbers = Vec::from_slice(flow.alloc, row.numbers.as_slice())?;
    let place = row_place(flow, change, n, &row.place)?;
    Ok(BatchRow { numbers, place })
}

/// The batches after their moves.
fn rows_moved(
    flow: &Flow<'_>,
    change: &RowMove<'_>,
    rows: &[BatchRow],
) -> Result<Vec<BatchRow>, AllocError>
    ensures { IfOk result (λ after. map batch_of after.items ≡ each_from (batch_moved (history_of flow.now) (row_move_of change.now)) 1 (map batch_of rows.now)) }
{
    let mut after = Vec::new(flow.alloc);
    for i in 0..rows.len() {
        let n = unit_no(i as u64 + 1)?;
        let row = row_after(flow, change, n, &rows[i])?;
        after.push(row)?;
    }
    Ok(after)
}

/// What a step does to the batches.
fn row_change<'a>(flow: &Flow<'_>, step: &'a Step) -> Result<RowChange<'a>, AllocError>
    requires { LivesStand (topology_of flow.now) (history_of flow.now) flow.now.past.lives.now }
    ensures { IfOk result (λ change. row_change_of change ≡ batch_change (topology_of flow.now) (history_of flow.now) (view_in flow.now.tables.now) step.now) }
{
    match step {
        Step::Close { stage, first, .. } => {
            let numbers = closing(flow, *stage, first.0)?;
            Ok(RowChange::Closed(numbers, *stage))
        }
        Step::Dispatch { stage } => {
            let sent = sends_by(flow, *stage)?;
            let alone = alone(flow, *stage)?;
            Ok(RowChange::RowsMoved(RowMove::SentOn(sent, alone, *stage)))
        }
        Step::Take { stage, sub, k } => {
            let units = next_units(flow, *stage, *sub, *k)?;
            Ok(RowChange::RowsMoved(RowMove::TakenIn(units, *stage)))
        }
        Step::Wrote {
            stage,
            end: BatchEnd::Outcomes(outcomes),
            ..
        } => Ok(RowChange::RowsMoved(RowMove::AnsweredIn(*stage, outcomes.as_slice()))),
        Step::Kill { .. } => {
            let set = flow.past.kill_set(flow.alloc, step)?;
            Ok(RowChange::RowsMoved(RowMove::KilledIn(set)))
        }
        Step::Halt => {
            let set = flow.past.kill_set(flow.alloc, step)?;
            Ok(RowChange::RowsMoved(RowMove::KilledIn(set)))
        }
        _ => Ok(RowChange::RowsMoved(RowMove::Stays)),
    }
}

/// The batches, and one more of these messages, which waits in the stage.
fn with_batch(
    flow: &Flow<'_>,
    numbers: &[u32],
    stage: StageNo,
    rows: &[BatchRow],
) -> Result<Vec<BatchRow>, AllocError>
    ensures { IfOk result (λ after. map batch_of after.items ≡ batches_changed (history_of flow.now) (ClosedIn numbers.now stage) (map batch_of rows.now)) }
{
    let mut after = rows_moved(flow, &RowMove::Stays, rows)?;
    let numbers = Vec::from_slice(flow.alloc, numbers)?;
    after.push(BatchRow {
        numbers,
        place: BatchPlace::AtBatcher(stage),
    })?;
    Ok(after)
}

/// The batches after a change.
fn rows_by(
    flow: &Flow<'_>,
    change: &RowChange<'_>,
    rows: &[BatchRow],
) -> Result<Vec<BatchRow>, AllocError>
    ensures { IfOk result (λ after. map batch_of after.items ≡ batches_changed (history_of flow.now) (row_change_of change.now) (map batch_of rows.now)) }
{
    match change {
        RowChange::Closed(numbers, stage) => { with_batch(flow, numbers.as_slice(), *stage, rows) },
        RowChange::RowsMoved(moves) => rows_moved(flow, moves, rows),
    }
}

/// The batches after one more step.
pub fn batches_after(flow: &Flow<'_>, step: &Step) -> Result<Vec<BatchRow>, AllocError>
    requires lives { LivesStand (topology_of flow.now) (history_of flow.now) flow.now.past.lives.now }
    requires closed { length flow.now.tables.now.batches.items ≡ closed_in (history_of flow.now) }
    ensures { IfOk result (λ rows. BatchesAfter (topology_of flow.now) (history_of flow.now) (view_in flow.now.tables.now) step.now rows.items) }
{
    let change = row_change(flow, step)?;
    rows_by(flow, &change, flow.tables.batches.as_slice())
}
