//! Rooms of subscriptions on one producer.

ghost use Rattle.std.specs.Prelude.{IfOk};
ghost use Rattle.pipe_types.specs.Rooms.{AreAscending, PartsDiffer};

use pipe_types::numbers::{StageNo, SubNo};
use pipe_types::room::Room;
use std::alloc::{AllocError, Global};

/// Rooms with these open demands; the consumers and the parts are numbered from 0.
pub fn rooms(alloc: Global, open_demands: &[u32]) -> Result<Vec<Room>, AllocError>
    ensures ascending { IfOk result (λ rooms. AreAscending rooms.items) }
    ensures parts_differ { IfOk result (λ rooms. PartsDiffer rooms.items) }
{
    let mut rooms = Vec::new(alloc);
    for (place, left) in open_demands.iter().enumerate() {
        let Ok(consumer) = u16::try_from(place) else {
            break;
        };
        let sub = SubNo {
            consumer: StageNo(consumer),
            producer: StageNo(1),
            generation: 1,
        };
        rooms.push(Room {
            sub,
            part: u32::from(consumer),
            left: *left,
        })?;
    }
    Ok(rooms)
}
