//! The open demand that is left in each room.

ghost use Rattle.std.specs.Prelude.{◌≡◌, ◌==◌, ◌-◌, ◌<◌, ℕ, length, IfSome, Some, if◌then◌else◌, find, position};
ghost use Rattle.dispatch_partition.specs.Left.{next_sub, one_less};

use pipe_types::numbers::SubNo;
use pipe_types::room::Room;

/// Takes one unit of a part's open demand, and says on which subscription; none where no demand is left.
pub(crate) fn take_one(left: &mut Vec<Room>, part: u32) -> Option<SubNo>
    ensures taken { result ≡ next_sub (find (λ u. u.part == part) left.old.items) }
    ensures rest { (q : ℕ) → find (λ u. u.part == q) left.new.items ≡ (if part == q then one_less (find (λ u. u.part == q) left.old.items) else find (λ u. u.part == q) left.old.items) }
{
    let Some(at) = place_of(left, part) else {
        return None;
    };
    let room = left[at];
    left[at] = spend(room);
    sub_of(room)
}

/// Where the first room of the part stands.
fn place_of(left: &[Room], part: u32) -> Option<usize>
    ensures first { result ≡ position (λ u. u.part == part) left.now }
    ensures within { IfSome result (λ at. at < length left.now) }
{
    left.iter().position(|u| u.part == part)
}

/// The room with one unit less of open demand, as long as there is one.
fn spend(room: Room) -> Room
    ensures { result ≡ record room { left = room.left - 1 } }
{
    Room {
        left: room.left.saturating_sub(1),
        ..room
    }
}

/// The subscription of a room with open demand.
fn sub_of(room: Room) -> Option<SubNo>
    ensures { result ≡ next_sub (Some room) }
{
    if room.left == 0 { None } else { Some(room.sub) }
}
