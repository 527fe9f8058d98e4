//! The queue of units that wait, without those that were sent.

ghost use Rattle.std.specs.{Prelude.{◌≡◌, ℕ, ◌<◌, ◌≤◌, ◌++◌, ◌∷◌, [], length, All, filter, drop, if◌then◌else◌, true, not, IsTrue, Some}, VecDeque.{deque_len, deque_capacity}};
ghost use Rattle.core_tables.specs.Tables.{spare_in};
ghost use Rattle.core_sends.specs.{Batches.{not_sent}, Losing.{still_waits, first_kept, passed}};

use core_tables::place_table::PlaceTable;
use message_ack::Legs;
use pipe_types::message::Place;
use pipe_types::numbers::{BatchNo, StageNo};
use pipe_types::room::Sent;
use std::collections::VecDeque;

/// The least place that no unit reaches.
pub(crate) fn reach(units: &[Sent]) -> usize
    ensures above { All (λ d. d.unit < result) units.now }
    ensures least { (n : ℕ) → All (λ d. d.unit < n) units.now → result ≤ n }
{
    let mut reach = 0;
    for sent in units {
        reach = reach.max(sent.unit as usize + 1);
    }
    reach
}

/// Takes the messages out of the stage's queue that do not wait in it any more; all of them stand among the first so many.
/// The others keep their order.
pub(crate) fn keep_waiting(
    queue: &mut VecDeque<(u32, u32)>,
    places: &PlaceTable,
    stage: StageNo,
    first: usize,
)
    requires within { first ≤ length queue.old.items }
    requires rest { All (λ unit. still_waits places.now.items stage unit.1 ≡ true) (drop first queue.old.items) }
    ensures items { queue.new.items ≡ filter (λ unit. still_waits places.now.items stage unit.1) queue.old.items }
    ensures room { spare_in (Some queue.old) ≤ spare_in (Some queue.new) }
{
    let mut kept = 0;
    for k in 0..first {
        let is_kept = pass(queue, places, stage);
        kept += usize::from(is_kept);
    }
    queue.rotate_right(kept);
}

/// Takes the first unit out of the queue, and puts it behind the others where it waits in the stage.
fn pass(queue: &mut VecDeque<(u32, u32)>, places: &PlaceTable, stage: StageNo) -> bool
    ensures items { queue.new.items ≡ passed (still_waits places.now.items stage) queue.old.items }
    ensures kept { result ≡ first_kept (still_waits places.now.items stage) queue.old.items }
    ensures room { spare_in (Some queue.old) ≤ spare_in (Some queue.new) }
{
    let Some(unit) = queue.pop_front() else {
        return false;
    };
    if !does_wait(places, stage, unit.1) {
        return false;
    }
    queue.push_back_reserved(unit);
    true
}

/// Whether the message with that number waits in the stage.
fn does_wait(places: &PlaceTable, stage: StageNo, no: u32) -> bool
    ensures { result ≡ still_waits places.now.items stage no }
{
    let at = (no as usize).saturating_sub(1);
    match places.get(at) {
        Some(Place::Waiting(here)) => stage.0 == here.0,
        _ => false,
    }
}

/// Takes the batches out of a batcher's queue that were sent; all of them stand among the first so many. The others keep
/// their order.
pub(crate) fn keep_unsent(queue: &mut VecDeque<(u32, u32)>, legs: &Legs, first: usize)
    requires within { first ≤ length queue.old.items }
    requires rest { All (λ unit. not_sent legs.now unit.1 ≡ true) (drop first queue.old.items) }
    ensures items { queue.new.items ≡ filter (λ unit. not_sent legs.now unit.1) queue.old.items }
    ensures room { spare_in (Some queue.old) ≤ spare_in (Some queue.new) }
{
    let mut left = 0;
    for k in 0..first {
        let is_kept = pass_unsent(queue, legs);
        left += usize::from(is_kept);
    }
    queue.rotate_right(left);
}

/// Takes the first batch out of the queue, and puts it behind the others where it was not sent.
fn pass_unsent(queue: &mut VecDeque<(u32, u32)>, legs: &Legs) -> bool
    ensures items { queue.new.items ≡ passed (not_sent legs.now) queue.old.items }
    ensures kept { result ≡ first_kept (not_sent legs.now) queue.old.items }
    ensures room { spare_in (Some queue.old) ≤ spare_in (Some queue.new) }
{
    let Some(batch) = queue.pop_front() else {
        return false;
    };
    if legs.is_sent(BatchNo(batch.1)) {
        return false;
    }
    queue.push_back_reserved(batch);
    true
}
