//! What the end of a child's run makes of one row.

ghost use Rattle.std.specs.Prelude.{◌≡◌, ℕ, suc, ◌<◌, ◌≤◌, ◌==◌, ◌&&◌, not, filter, if◌then◌else◌, slice_get, length, vec_capacity, Some};
ghost use Rattle.pipe_types.specs.declared.numbers.StageNo.{StageNo as Stage};
ghost use Rattle.pipe_model.specs.{Flow.{child_place}, Ledger.{crashed_reply}};
ghost use Rattle.core_tables.specs.Tables.{list_at};

use core_tables::place_table::PlaceTable;
use pipe_types::message::{Loss, Outcome, Place, Reply, Why};
use pipe_types::numbers::StageNo;

/// Whether the run crashed.
pub(crate) fn has_crashed(reply: &Reply) -> bool
    ensures { result ≡ crashed_reply reply.now }
{
    matches!(reply, Reply::Crashed)
}

/// Where a message stands after a run of its child.
pub(crate) fn place_after(again: bool, stage: StageNo, incarnation: u32, reply: &Reply) -> Place
    ensures { result ≡ child_place again stage incarnation reply.now }
{
    match reply {
        Reply::Pass(_) => Place::Acked(Outcome::Successful),
        Reply::Failed(why) | Reply::Raised(why) => Place::Acked(Outcome::Failed(*why)),
        Reply::Crashed => {
            if again {
                Place::Running(stage)
            } else {
                Place::Lost(Loss::Killed(stage, incarnation, Why::Crash))
            }
        }
    }
}

/// Notes where the message with that number stands.
pub(crate) fn put_place(places: &mut PlaceTable, no: u32, place: Place)
    requires least { 1 ≤ no }
    requires within { no ≤ length places.old.items }
    ensures placed { (i : ℕ) → slice_get places.new.items i ≡ (if no == suc i then Some place else slice_get places.old.items i) }
    ensures len { length places.new.items ≡ length places.old.items }
    ensures capacity { vec_capacity places.new ≡ vec_capacity places.old }
{
    places.write(no as usize - 1, place);
}

/// The mark of a message after a run of its child: this one unless it runs again, and then 0.
pub(crate) fn mark_of(again: bool, entry: u64) -> u64
    ensures { result ≡ (if again then 0 else entry) }
{
    if again { 0 } else { entry }
}

/// Notes the mark of the message with that number.
pub(crate) fn put_mark(settled: &mut Vec<u64>, no: u32, mark: u64)
    requires least { 1 ≤ no }
    requires within { no ≤ length settled.old.items }
    ensures marked { (i : ℕ) → slice_get settled.new.items i ≡ (if no == suc i then Some mark else slice_get settled.old.items i) }
    ensures len { length settled.new.items ≡ length settled.old.items }
    ensures capacity { vec_capacity settled.new ≡ vec_capacity settled.old }
{
    settled[no as usize - 1] = mark;
}

/// How many units are handled at the end of a run: none where the message runs again.
pub(crate) fn units_handled(again: bool) -> u32
    ensures { result ≡ (if again then 0 else 1) }
{
    if again { 0 } else { 1 }
}

/// Takes the number out of the stage's chunk, unless its message runs again.
pub(crate) fn leave_chunk(chunks: &mut Vec<Vec<u32>>, stage: StageNo, no: u32, again: bool)
    requires { stage.0 < length chunks.old.items }
    ensures left { (s : Stage) → list_at chunks.new.items s ≡ (if stage.0 == s.0 && not again then filter (λ n. not (no == n)) (list_at chunks.old.items s) else list_at chunks.old.items s) }
    ensures len { length chunks.new.items ≡ length chunks.old.items }
{
    if !again {
        take_out(chunks, stage, no);
    }
}

/// Takes the number out of the stage's chunk.
fn take_out(chunks: &mut Vec<Vec<u32>>, stage: StageNo, no: u32)
    requires { stage.0 < length chunks.old.items }
    ensures left { (s : Stage) → list_at chunks.new.items s ≡ (if stage.0 == s.0 then filter (λ n. not (no == n)) (list_at chunks.old.items s) else list_at chunks.old.items s) }
    ensures len { length chunks.new.items ≡ length chunks.old.items }
{
    let chunk = &mut chunks[stage.0 as usize];
    chunk.retain(|n| no != *n);
}
