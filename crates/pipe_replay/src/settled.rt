//! When each message was acknowledged or lost.

ghost use Rattle.std.specs.Prelude.{◌≡◌, ◌+◌, ◌<◌, ◌∷◌, IfOk, length};
ghost use Rattle.pipe_model.specs.{Moves.{is_final as is_final_in}, Places.{settled_at}};
ghost use Rattle.plain_queues.specs.Flows.{topology_of, history_of};
ghost use Rattle.plain_places.specs.Standing.{TablesStand};
ghost use Rattle.pipe_replay.specs.Rows.{SettledStand};

use pipe_types::message::Place;
use pipe_types::step::Step;
use plain_counts::unit_no;
use plain_places::place_now;
use plain_queues::{Flow, Tables, place_of};
use std::alloc::AllocError;

/// Whether the message is acknowledged or lost.
fn is_final(place: Option<Place>) -> bool
    ensures { result ≡ is_final_in place }
{
    match place {
        Some(Place::Acked(_)) => true,
        Some(Place::Lost(_)) => true,
        _ => false,
    }
}

/// When message `i + 1` was settled, where it is one of the tables after the step.
fn settled_next(
    flow: &Flow<'_>,
    new: &Tables,
    settled: &[u64],
    step: &Step,
    i: usize,
) -> Result<u64, AllocError>
    requires old { TablesStand (topology_of flow.now) (history_of flow.now) flow.now.tables.now }
    requires new { TablesStand (topology_of flow.now) (step.now ∷ history_of flow.now) new.now }
    requires settled { SettledStand (topology_of flow.now) (history_of flow.now) settled.now }
    requires within { i < length new.now.places.items }
    ensures { IfOk result (λ at. at ≡ settled_at (topology_of flow.now) (step.now ∷ history_of flow.now) (i + 1)) }
{
    let n = unit_no(i as u64 + 1)?;
    if is_final(place_now(flow, n)) {
        Ok(settled[i])
    } else if is_final(place_of(new, n)) {
        Ok(flow.past.steps.len() as u64)
    } else {
        Ok(0)
    }
}

/// When each message was settled, after one more step.
pub(crate) fn settled_after(
    flow: &Flow<'_>,
    new: &Tables,
    settled: &[u64],
    step: &Step,
) -> Result<Vec<u64>, AllocError>
    requires old { TablesStand (topology_of flow.now) (history_of flow.now) flow.now.tables.now }
    requires new { TablesStand (topology_of flow.now) (step.now ∷ history_of flow.now) new.now }
    requires settled { SettledStand (topology_of flow.now) (history_of flow.now) settled.now }
    ensures { IfOk result (λ after. SettledStand (topology_of flow.now) (step.now ∷ history_of flow.now) after.items) }
{
    let mut after = Vec::new(flow.alloc);
    for i in 0..new.places.len() {
        after.push(settled_next(flow, new, settled, step, i)?)?;
    }
    Ok(after)
}
