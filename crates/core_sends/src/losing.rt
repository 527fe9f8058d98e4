//! Waiting units that are lost over the size of their stage's buffer.

ghost use Rattle.std.specs.Prelude.{◌≡◌, ℕ, suc, ◌≤◌, ◌<◌, length, All, map, option_map, slice_get, Some, vec_capacity};
ghost use Rattle.core_tables.specs.Tables.{spare_in};
ghost use Rattle.core_sends.specs.Losing.{lost_in, lost_over_size, marked, over_from, over_to, between, outside};

use core_tables::place_table::PlaceTable;
use pipe_types::message::{Loss, Place};
use pipe_types::numbers::StageNo;
use pipe_types::topology::Keep;
use std::collections::VecDeque;

/// The place of the first unit that is over the size, of so many.
pub(crate) fn first_over(size: Option<u32>, keep: Keep, len: usize) -> usize
    ensures { result ≡ over_from size keep len }
{
    match (size, keep) {
        (None, _) => len,
        (Some(_), Keep::Last) => 0,
        (Some(size), Keep::First) => len.min(size as usize),
    }
}

/// The place past the last unit that is over the size, of so many.
pub(crate) fn end_over(size: Option<u32>, keep: Keep, len: usize) -> usize
    ensures { result ≡ over_to size keep len }
{
    match (size, keep) {
        (None, _) => len,
        (Some(size), Keep::Last) => len.saturating_sub(size as usize),
        (Some(_), Keep::First) => len,
    }
}

/// Notes that the messages from one place of the stage's queue to another are lost over its size.
pub(crate) fn lose_all(
    places: &mut PlaceTable,
    stage: StageNo,
    queue: &VecDeque<(u32, u32)>,
    from: usize,
    to: usize,
)
    requires range { from ≤ to }
    requires end { to ≤ length queue.now.items }
    requires within { All (λ unit. (1 ≤ unit.1) × (unit.1 ≤ length places.old.items)) queue.now.items }
    ensures len { length places.new.items ≡ length places.old.items }
    ensures placed { (i : ℕ) → slice_get places.new.items i ≡ option_map (lost_over_size (map (λ unit. unit.1) (between from to queue.now.items)) stage (suc i)) (slice_get places.old.items i) }
    ensures capacity { vec_capacity places.new ≡ vec_capacity places.old }
{
    for k in from..to {
        let at = (queue[k].1 - 1) as usize;
        let place = lost(places.read(at), stage);
        places.write(at, place);
    }
}

/// Where a message of the stage's queue stands that is over the size.
fn lost(place: Place, stage: StageNo) -> Place
    ensures { result ≡ lost_in stage place }
{
    match place {
        Place::Waiting(here) if stage.0 == here.0 => Place::Lost(Loss::Overflow(stage)),
        _ => place,
    }
}

/// Notes the step that settled the messages from one place of the queue to another.
pub(crate) fn mark_all(
    settled: &mut Vec<u64>,
    mark: u64,
    queue: &VecDeque<(u32, u32)>,
    from: usize,
    to: usize,
)
    requires range { from ≤ to }
    requires end { to ≤ length queue.now.items }
    requires within { All (λ unit. (1 ≤ unit.1) × (unit.1 ≤ length settled.old.items)) queue.now.items }
    ensures len { length settled.new.items ≡ length settled.old.items }
    ensures marked { (i : ℕ) → slice_get settled.new.items i ≡ option_map (marked (map (λ unit. unit.1) (between from to queue.now.items)) mark (suc i)) (slice_get settled.old.items i) }
    ensures capacity { vec_capacity settled.new ≡ vec_capacity settled.old }
{
    for k in from..to {
        settled[(queue[k].1 - 1) as usize] = mark;
    }
}

/// Takes the units from one place to another out of the queue.
pub(crate) fn take_out(queue: &mut VecDeque<(u32, u32)>, from: usize, to: usize)
    requires range { from ≤ to }
    requires end { to ≤ length queue.old.items }
    ensures items { queue.new.items ≡ outside from to queue.old.items }
    ensures room { spare_in (Some queue.old) ≤ spare_in (Some queue.new) }
{
    queue.drain(from..to);
}
