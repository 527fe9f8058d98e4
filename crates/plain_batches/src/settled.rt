//! Where a batch leaves its messages.

ghost use Rattle.std.specs.Prelude.{◌≡◌, ◌==◌, ◌∷◌, [], Some, slice_get, map, option_map, option_copied, position, unwrap_or};
ghost use Rattle.pipe_model.specs.Batches as model;
ghost use Rattle.pipe_model.specs.Flow.{place_in_batch as place_in_batch_model, by_batch as by_batch_model};
ghost use Rattle.plain_queues.specs.Views.{leg_of, leg_place_of, batch_place_of, batch_of, batch_at};

use pipe_types::message::{Outcome, Place};
use pipe_types::numbers::BatchNo;
use plain_queues::{BatchPlace, BatchRow, Leg, LegPlace};

fn is_leg_open(leg: &Leg) -> bool
    ensures { result ≡ model.is_leg_open (leg_place_of leg.now.place) }
{
    match leg.place {
        LegPlace::InInbox => true,
        LegPlace::AtWork => true,
        _ => false,
    }
}

/// Whether no leg is in an inbox or at work.
pub fn is_settled(legs: &[Leg]) -> bool
    ensures { result ≡ model.is_settled (map leg_of legs.now) }
{
    for leg in legs {
        if is_leg_open(leg) {
            return false;
        }
    }
    true
}

/// The least leg that was lost.
fn lost_leg(legs: &[Leg]) -> Option<Place>
    ensures { result ≡ model.lost_leg (map leg_of legs.now) }
{
    for leg in legs {
        if let LegPlace::LegLost(loss) = leg.place {
            return Some(Place::Lost(loss));
        }
    }
    None
}

fn failure_at(outcomes: &[Outcome], at: usize) -> Option<Place>
    ensures { result ≡ model.outcome_place (slice_get outcomes.now at) }
{
    match outcomes.get(at) {
        Some(Outcome::Failed(why)) => Some(Place::Acked(Outcome::Failed(*why))),
        _ => None,
    }
}

fn failure_of(leg: &Leg, at: usize) -> Option<Place>
    ensures { result ≡ model.failed_leg (leg_of leg.now ∷ []) at }
{
    match &leg.place {
        LegPlace::Answered(outcomes) => failure_at(outcomes.as_slice(), at),
        _ => None,
    }
}

/// The least leg that failed the message at that place of the batch.
fn failed_leg(legs: &[Leg], at: usize) -> Option<Place>
    ensures { result ≡ model.failed_leg (map leg_of legs.now) at }
{
    for leg in legs {
        if let Some(failed) = failure_of(leg, at) {
            return Some(failed);
        }
    }
    None
}

/// Lost where a leg was lost, else failed where a leg failed it, else successful.
fn settled_as(lost: Option<Place>, failed: Option<Place>) -> Place
    ensures { result ≡ model.settled_as lost failed }
{
    match (lost, failed) {
        (Some(lost), _) => lost,
        (None, Some(failed)) => failed,
        (None, None) => Place::Acked(Outcome::Successful),
    }
}

fn place_by_legs(batch: u32, legs: &[Leg], at: usize) -> Place
    ensures { result ≡ model.place_by_batch batch (model.Sent (map leg_of legs.now)) at }
{
    if is_settled(legs) {
        settled_as(lost_leg(legs), failed_leg(legs, at))
    } else {
        Place::InBatch(BatchNo(batch))
    }
}

/// Where the message at that place of the batch stands.
fn place_by_batch(batch: u32, place: &BatchPlace, at: usize) -> Place
    ensures { result ≡ model.place_by_batch batch (batch_place_of place.now) at }
{
    match place {
        BatchPlace::AtBatcher(_) => Place::InBatch(BatchNo(batch)),
        BatchPlace::Sent(legs) => place_by_legs(batch, legs.as_slice(), at),
        BatchPlace::Dropped(loss) => Place::Lost(*loss),
    }
}

fn position_in(numbers: &[u32], n: u32) -> Option<usize>
    ensures { result ≡ position (λ m. m == n) numbers.now }
{
    numbers.iter().position(|m| *m == n)
}

fn position_of(numbers: &[u32], n: u32) -> usize
    ensures { result ≡ unwrap_or (position (λ m. m == n) numbers.now) 0 }
{
    match position_in(numbers, n) {
        Some(at) => at,
        None => 0,
    }
}

fn place_in_row(batch: u32, row: &BatchRow, n: u32) -> Place
    ensures { result ≡ place_in_batch_model batch (Some (batch_of row.now)) n }
{
    let at = position_of(row.numbers.as_slice(), n);
    place_by_batch(batch, &row.place, at)
}

/// Where message `n` of the batch stands.
pub fn place_in_batch(batch: u32, row: Option<&BatchRow>, n: u32) -> Place
    ensures { result ≡ place_in_batch_model batch (option_map batch_of (option_copied row.entry)) n }
{
    match row {
        Some(row) => place_in_row(batch, row, n),
        None => Place::InBatch(BatchNo(batch)),
    }
}

fn row_at(rows: &[BatchRow], n: u32) -> Option<&BatchRow>
    ensures { option_map batch_of (option_copied result) ≡ batch_at rows.now n }
{
    if n == 0 {
        return None;
    }
    rows.get(n as usize - 1)
}

/// A message of a batch stands where the batch leaves it.
pub fn by_batch(rows: &[BatchRow], n: u32, place: Place) -> Place
    ensures { result ≡ by_batch_model (batch_at rows.now) n place }
{
    match place {
        Place::InBatch(batch) => place_in_batch(batch.0, row_at(rows, batch.0), n),
        place => place,
    }
}
