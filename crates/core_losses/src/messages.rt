//! The messages that stand in killed stages.

ghost use Rattle.std.specs.Prelude.{◌≡◌, ℕ, length, option_map, slice_get, vec_capacity};
ghost use Rattle.core_deaths.specs.Reasons.{reason_at};
ghost use Rattle.core_losses.specs.Losses.{incarnation_at, loss_in, loss_at, place_loss, place_lost, lost_to, marked_to};

use core_tables::place_table::PlaceTable;
use core_tables::rows::StageRow;
use pipe_types::message::{Loss, Place, Why};
use pipe_types::numbers::StageNo;

/// How what stands in the stage is lost, and none where the stage is not killed.
pub(crate) fn loss_of(rows: &[StageRow], killed: &[Option<Why>], stage: StageNo) -> Option<Loss>
    requires rows { length rows.now ≡ length killed.now }
    ensures { result ≡ loss_in (incarnation_at rows.now stage) stage (reason_at killed.now stage) }
{
    match killed.get(stage.0 as usize) {
        Some(Some(why)) => Some(Loss::Killed(stage, rows[stage.0 as usize].incarnation, *why)),
        _ => None,
    }
}

/// How the message at that place is lost, and none where the stage in which it stands is not killed.
fn loss_of_place(rows: &[StageRow], killed: &[Option<Why>], place: Place) -> Option<Loss>
    requires rows { length rows.now ≡ length killed.now }
    ensures { result ≡ place_loss (reason_at killed.now) (incarnation_at rows.now) place }
{
    match place {
        Place::Waiting(stage) | Place::Running(stage) | Place::Gathered(stage) => {
            loss_of(rows, killed, stage)
        }
        Place::Inbox(sub) => loss_of(rows, killed, sub.consumer),
        _ => None,
    }
}

fn lost(place: Place, loss: Option<Loss>) -> Place
    ensures { result ≡ lost_to loss place }
{
    match loss {
        Some(loss) => Place::Lost(loss),
        None => place,
    }
}

fn marked(old: u64, loss: Option<Loss>, mark: u64) -> u64
    ensures { result ≡ marked_to loss mark old }
{
    match loss {
        Some(_) => mark,
        None => old,
    }
}

/// Notes that each message that stands in a killed stage is lost, and at which step.
pub(crate) fn lose_messages(
    places: &mut PlaceTable,
    marks: &mut Vec<u64>,
    rows: &[StageRow],
    killed: &[Option<Why>],
    mark: u64,
)
    requires rows { length rows.now ≡ length killed.now }
    requires marks { length marks.old.items ≡ length places.old.items }
    ensures places { (i : ℕ) → slice_get places.new.items i ≡ option_map (place_lost (reason_at killed.now) (incarnation_at rows.now)) (slice_get places.old.items i) }
    ensures places_len { length places.new.items ≡ length places.old.items }
    ensures marks { (i : ℕ) → slice_get marks.new.items i ≡ option_map (marked_to (loss_at (reason_at killed.now) (incarnation_at rows.now) (slice_get places.old.items i)) mark) (slice_get marks.old.items i) }
    ensures marks_len { length marks.new.items ≡ length marks.old.items }
    ensures places_capacity { vec_capacity places.new ≡ vec_capacity places.old }
    ensures marks_capacity { vec_capacity marks.new ≡ vec_capacity marks.old }
{
    for at in 0..places.len() {
        let loss = loss_of_place(rows, killed, places.read(at));
        let place = lost(places.read(at), loss);
        places.write(at, place);
        marks[at] = marked(marks[at], loss, mark);
    }
}
