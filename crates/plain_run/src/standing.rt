//! Where the messages of a run stand, and whether it is drained. A step may be owed.

ghost use Rattle.std.specs.{Prelude.{◌≡◌, Some, length}, List.{filter_map, list_all}};
ghost use Rattle.pipe_model.specs.{Acknowledgements.{numbers_upto}, History.{accepted as accepted_in}, Flow.{place}, Moves.{is_drained as is_drained_as, jobs_out, is_final}};
ghost use Rattle.pipe_model.specs.Posts.{has_post_out};
ghost use Rattle.core_state.specs.Stands.{Holds};

use crate::jobs::is_out;
use core_rows::posts::MOST_SLOTS;
use core_state::Core;
use core_tables::place_table::PlaceTable;
use pipe_types::message::Place;
use pipe_types::numbers::{Post, StageNo};

/// How many messages were accepted.
pub(crate) fn accepted(core: &Core) -> u32
    requires holds { Holds core.now }
    ensures { result ≡ accepted_in core.now.journal.steps }
{
    core.totals.accepted
}

/// The places of the accepted messages, in order of their numbers.
pub(crate) fn places(core: &Core) -> &PlaceTable
    requires holds { Holds core.now }
    ensures all { result.now.items ≡ filter_map (place core.now.topology core.now.journal.steps) (numbers_upto (accepted_in core.now.journal.steps)) }
    ensures len { length result.now.items ≡ accepted_in core.now.journal.steps }
{
    &core.places
}

/// Whether the drain has begun, no job is out, and every accepted message is acknowledged or lost.
pub(crate) fn is_drained(core: &Core) -> bool
    requires holds { Holds core.now }
    ensures { result ≡ is_drained_as core.now.topology core.now.journal.steps }
{
    if !core.totals.draining {
        return false;
    }
    if is_any_out(core) {
        return false;
    }
    are_final(&core.places)
}

/// Whether each message is acknowledged or lost.
fn are_final(places: &PlaceTable) -> bool
    ensures { result ≡ list_all (λ p. is_final (Some p)) places.now.items }
{
    for at in 0..places.len() {
        if !is_settled(places.read(at)) {
            return false;
        }
    }
    true
}

/// Whether the message is acknowledged or lost.
fn is_settled(place: Place) -> bool
    ensures { result ≡ is_final (Some place) }
{
    matches!(place, Place::Acked(_) | Place::Lost(_))
}

/// Whether a job of any stage is out.
fn is_any_out(core: &Core) -> bool
    requires holds { Holds core.now }
    ensures { result ≡ jobs_out core.now.topology core.now.journal.steps }
{
    for spec in core.topology.stages.as_slice() {
        if has_job_out(core, spec.no) {
            return true;
        }
    }
    false
}

/// Whether a job of the stage is out.
fn has_job_out(core: &Core, stage: StageNo) -> bool
    requires holds { Holds core.now }
    ensures { result ≡ has_post_out core.now.journal.steps stage }
{
    for slot in 0..MOST_SLOTS {
        if is_out(core, Post { stage, slot }) {
            return true;
        }
    }
    false
}
