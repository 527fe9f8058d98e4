//! How the messages of a batch end.

ghost use Rattle.std.specs.Prelude.{◌≡◌, ℕ, suc, length, IfSome, slice_get, option_map, vec_capacity};
ghost use Rattle.core_state.specs.Settles.{ended_by, marked_by, AreNumbers};

use core_state::settles::{mark_all, settle_all};
use core_tables::place_table::PlaceTable;
use message_ack::Settled;

/// Notes how the messages ended and at which step, where their batch did.
pub(crate) fn end_all(
    places: &mut PlaceTable,
    marks: &mut Vec<u64>,
    numbers: &[u32],
    settled: Option<Settled>,
    mark: u64,
)
    requires numbers { IfSome settled (λ _. AreNumbers (length places.old.items) numbers.now) }
    requires marks { length marks.old.items ≡ length places.old.items }
    ensures places { (i : ℕ) → slice_get places.new.items i ≡ option_map (ended_by settled numbers.now (suc i)) (slice_get places.old.items i) }
    ensures places_len { length places.new.items ≡ length places.old.items }
    ensures marks { (i : ℕ) → slice_get marks.new.items i ≡ option_map (marked_by settled numbers.now mark (suc i)) (slice_get marks.old.items i) }
    ensures marks_len { length marks.new.items ≡ length marks.old.items }
    ensures places_capacity { vec_capacity places.new ≡ vec_capacity places.old }
    ensures marks_capacity { vec_capacity marks.new ≡ vec_capacity marks.old }
{
    if let Some(settled) = settled {
        settle_all(places, numbers, &settled);
        mark_all(marks, numbers, mark);
    }
}
