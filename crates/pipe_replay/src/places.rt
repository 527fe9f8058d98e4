//! The rows of places.

ghost use Rattle.std.specs.Prelude.{◌≡◌, ◌+◌, ◌<◌, true, IfOk, length};
ghost use Rattle.pipe_model.specs.{Legal.{is_legal}, Places.{ArePlaces}};
ghost use Rattle.plain_queues.specs.Flows.{topology_of, history_of};
ghost use Rattle.plain_places.specs.Standing.{TablesStand};
ghost use Rattle.pipe_replay.specs.Rows.{SettledStand, IsPlaceRow};

use pipe_types::message::Outcome;
use pipe_types::numbers::{MsgNo, StageNo};
use pipe_types::state::PlaceRow;
use plain_counts::{producer_of, unit_no};
use plain_queues::Flow;
use std::alloc::AllocError;

/// The row of message `i + 1`.
fn place_row(flow: &Flow<'_>, settled: &[u64], i: usize) -> Result<PlaceRow, AllocError>
    requires legal { is_legal (topology_of flow.now) (history_of flow.now) ≡ true }
    requires tables { TablesStand (topology_of flow.now) (history_of flow.now) flow.now.tables.now }
    requires settled { SettledStand (topology_of flow.now) (history_of flow.now) settled.now }
    requires within { i < length flow.now.tables.now.places.items }
    ensures { IfOk result (λ row. IsPlaceRow (topology_of flow.now) (history_of flow.now) (i + 1) row) }
{
    let n = unit_no(i as u64 + 1)?;
    let producer = producer_of(flow.past.steps, n)?.unwrap_or(StageNo(0));
    Ok(PlaceRow {
        no: MsgNo(n),
        producer,
        place: flow.tables.places[i],
        at: settled[i],
    })
}

/// The rows of all accepted messages, in order of their numbers.
pub(crate) fn place_rows(flow: &Flow<'_>, settled: &[u64]) -> Result<Vec<PlaceRow>, AllocError>
    requires legal { is_legal (topology_of flow.now) (history_of flow.now) ≡ true }
    requires tables { TablesStand (topology_of flow.now) (history_of flow.now) flow.now.tables.now }
    requires settled { SettledStand (topology_of flow.now) (history_of flow.now) settled.now }
    ensures { IfOk result (λ rows. ArePlaces (topology_of flow.now) (history_of flow.now) rows.items) }
{
    // the toolchain loses the type of an outcome in a push of a place where the function does not name it
    let outcome = Outcome::Successful;
    let _ = outcome;
    let mut rows = Vec::new(flow.alloc);
    for i in 0..flow.tables.places.len() {
        rows.push(place_row(flow, settled, i)?)?;
    }
    Ok(rows)
}
