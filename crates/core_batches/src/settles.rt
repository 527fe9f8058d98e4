//! How the messages of a batch end.

ghost use Rattle.std.specs.{Prelude.{◌≡◌, ℕ, suc, ◌+◌, ◌++◌, ◌<◌, ◌≤◌, length, All, IfSome, slice_get, vec_capacity, option_map}, List.{filter_map}};
ghost use Rattle.core_state.specs.Settles.{ended_by, marked_by, noted, AreNumbers};
ghost use Rattle.core_batches.specs.Writes.{leg_place};

use core_state::settles::{mark_all, note_acked, settle_all};
use core_tables::place_table::PlaceTable;
use core_tables::rows::BatchRow;
use message_ack::Settled;
use pipe_journal::Journal;
use pipe_types::numbers::{StageNo, SubNo};

/// How many legs of the batch in the row stand before the one on this subscription.
pub(crate) fn leg_of_batch(batches: &Vec<BatchRow>, at: usize, sub: SubNo) -> u16
    requires there { at < length batches.now.items }
    requires few { IfSome (slice_get batches.now.items at) (λ row. length row.subs.items ≤ 64) }
    ensures { IfSome (slice_get batches.now.items at) (λ row. result ≡ leg_place sub row.subs.items) }
{
    leg_on(&batches[at].subs, sub)
}

/// How many legs stand before the one on this subscription.
fn leg_on(subs: &[SubNo], sub: SubNo) -> u16
    requires { length subs.now ≤ 64 }
    ensures { result ≡ leg_place sub subs.now }
{
    let mut leg = 0;
    for other in subs {
        if *other == sub {
            return leg;
        }
        leg += 1;
    }
    leg
}

/// Notes how the messages of the batch in the row ended and at which step, where the batch did.
pub(crate) fn end_batch(
    places: &mut PlaceTable,
    marks: &mut Vec<u64>,
    batches: &Vec<BatchRow>,
    at: usize,
    settled: Option<Settled>,
    mark: u64,
)
    requires there { at < length batches.now.items }
    requires numbers { IfSome (slice_get batches.now.items at) (λ row. AreNumbers (length places.old.items) row.numbers.items) }
    requires marks { length marks.old.items ≡ length places.old.items }
    ensures places { IfSome (slice_get batches.now.items at) (λ row. (i : ℕ) → slice_get places.new.items i ≡ option_map (ended_by settled row.numbers.items (suc i)) (slice_get places.old.items i)) }
    ensures places_len { length places.new.items ≡ length places.old.items }
    ensures places_capacity { vec_capacity places.new ≡ vec_capacity places.old }
    ensures marks { IfSome (slice_get batches.now.items at) (λ row. (i : ℕ) → slice_get marks.new.items i ≡ option_map (marked_by settled row.numbers.items mark (suc i)) (slice_get marks.old.items i)) }
    ensures marks_len { length marks.new.items ≡ length marks.old.items }
    ensures marks_capacity { vec_capacity marks.new ≡ vec_capacity marks.old }
{
    end_all(places, marks, &batches[at].numbers, settled, mark);
}

/// Notes how the messages ended and at which step, where their batch did.
fn end_all(
    places: &mut PlaceTable,
    marks: &mut Vec<u64>,
    numbers: &[u32],
    settled: Option<Settled>,
    mark: u64,
)
    requires numbers { AreNumbers (length places.old.items) numbers.now }
    requires marks { length marks.old.items ≡ length places.old.items }
    ensures places { (i : ℕ) → slice_get places.new.items i ≡ option_map (ended_by settled numbers.now (suc i)) (slice_get places.old.items i) }
    ensures places_len { length places.new.items ≡ length places.old.items }
    ensures places_capacity { vec_capacity places.new ≡ vec_capacity places.old }
    ensures marks { (i : ℕ) → slice_get marks.new.items i ≡ option_map (marked_by settled numbers.now mark (suc i)) (slice_get marks.old.items i) }
    ensures marks_len { length marks.new.items ≡ length marks.old.items }
    ensures marks_capacity { vec_capacity marks.new ≡ vec_capacity marks.old }
{
    if let Some(settled) = settled {
        settle_all(places, numbers, &settled);
        mark_all(marks, numbers, mark);
    }
}

/// Notes those messages of the batch in the row that are acknowledged in the journal's log, as by the step at that place.
pub(crate) fn note_batch(
    journal: &mut Journal,
    places: &PlaceTable,
    producers: &[StageNo],
    batches: &Vec<BatchRow>,
    at: usize,
    mark: u64,
)
    requires there { at < length batches.now.items }
    requires least { IfSome (slice_get batches.now.items at) (λ row. All (λ n. 1 ≤ n) row.numbers.items) }
    requires room { IfSome (slice_get batches.now.items at) (λ row. length journal.old.acked.rows + length row.numbers.items ≤ journal.old.acked.room) }
    ensures noted { IfSome (slice_get batches.now.items at) (λ row. journal.new.acked.rows ≡ journal.old.acked.rows ++ filter_map (noted places.now.items producers.now mark) row.numbers.items) }
    ensures same_room { journal.new.acked.room ≡ journal.old.acked.room }
    ensures same_steps { journal.new.steps ≡ journal.old.steps }
    ensures same_spare { journal.new.spare ≡ journal.old.spare }
{
    note_acked(journal, places, producers, &batches[at].numbers, mark);
}
