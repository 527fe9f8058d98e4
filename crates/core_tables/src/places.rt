//! Where the messages stand.

ghost use Rattle.std.specs.Prelude.{◌≡◌, ℕ, suc, ◌≤◌, ◌∷◌, [], length, All, option_map, slice_get, vec_capacity};
ghost use Rattle.pipe_model.specs.Flow.{dispatched, taken};
ghost use Rattle.core_tables.specs.{Chunks.{run_in}, Tables.{IsNumbered}};

use crate::place_table::PlaceTable;
use pipe_types::message::Place;
use pipe_types::numbers::StageNo;
use pipe_types::room::Sent;

/// Moves each unit that waits in the stage to its inbox.
pub fn place_all(places: &mut PlaceTable, stage: StageNo, units: &[Sent])
    requires within { All (IsNumbered (length places.old.items)) units.now }
    ensures len { length places.new.items ≡ length places.old.items }
    ensures capacity { vec_capacity places.new ≡ vec_capacity places.old }
    ensures placed { (i : ℕ) → slice_get places.new.items i ≡ option_map (dispatched units.now [] [] stage (suc i)) (slice_get places.old.items i) }
{
    for sent in units {
        let at = (sent.unit - 1) as usize;
        let place = moved(places.read(at), stage, *sent);
        places.write(at, place);
    }
}

/// Where a message stands once it was sent, if it waits in the stage.
fn moved(place: Place, stage: StageNo, sent: Sent) -> Place
    ensures { result ≡ dispatched (sent ∷ []) [] [] stage sent.unit place }
{
    match place {
        Place::Waiting(here) if here.0 == stage.0 => Place::Inbox(sent.sub),
        _ => place,
    }
}

/// Notes that each message of the chunk runs in the stage.
pub fn run_all(places: &mut PlaceTable, stage: StageNo, chunk: &[u32])
    requires within { All (λ n. (1 ≤ n) × (n ≤ length places.old.items)) chunk.now }
    ensures len { length places.new.items ≡ length places.old.items }
    ensures capacity { vec_capacity places.new ≡ vec_capacity places.old }
    ensures placed { (i : ℕ) → slice_get places.new.items i ≡ option_map (taken chunk.now stage (suc i)) (slice_get places.old.items i) }
{
    for no in chunk {
        let at = (*no - 1) as usize;
        let place = running(places.read(at), stage);
        places.write(at, place);
    }
}

/// Where a unit of the chunk stands that was in the stage's inbox.
fn running(place: Place, stage: StageNo) -> Place
    ensures { result ≡ run_in stage place }
{
    match place {
        Place::Inbox(sub) if sub.consumer.0 == stage.0 => Place::Running(stage),
        _ => place,
    }
}
