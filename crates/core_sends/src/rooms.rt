//! The live subscriptions on a stage, each with its open demand.

ghost use Rattle.std.specs.Prelude.{◌≡◌, Some, true, IfOk, OnOk};
ghost use Rattle.pipe_types.specs.Stages.{spec_of};
ghost use Rattle.pipe_model.specs.{Lives.{is_live}, Flow.{rooms_by, view_of}};
ghost use Rattle.core_state.specs.Stands.{Holds};
ghost use Rattle.core_sends.specs.Rooms.{room_between, and_room};

use core_state::Core;
use pipe_types::numbers::StageNo;
use pipe_types::room::Room;
use pipe_types::topology::StageSpec;
use std::alloc::AllocError;

/// The rooms of the stage, in order of their subscriptions.
pub(crate) fn rooms_of(core: &Core, stage: StageNo) -> Result<Vec<Room>, AllocError>
    requires holds { Holds core.now }
    requires live { is_live core.now.topology core.now.journal.steps stage ≡ true }
    ensures { IfOk result (λ rooms. rooms.items ≡ rooms_by core.now.topology core.now.journal.steps (view_of core.now.topology core.now.journal.steps) stage) }
{
    let mut rooms = Vec::new(core.alloc);
    let Some(producer) = core.topology.stages.find(stage) else {
        unreachable!();
    };
    for consumer in core.topology.stages.as_slice() {
        push_some(&mut rooms, room(core, producer, consumer))?;
    }
    Ok(rooms)
}

/// The room of the consumer's subscription on the live producer, where the consumer takes from it and is live.
#[inline(always)]
pub fn room(core: &Core, producer: &StageSpec, consumer: &StageSpec) -> Option<Room>
    requires holds { Holds core.now }
    requires from { spec_of core.now.topology producer.now.no ≡ Some producer.now }
    requires to { spec_of core.now.topology consumer.now.no ≡ Some consumer.now }
    requires live { is_live core.now.topology core.now.journal.steps producer.now.no ≡ true }
    ensures { result ≡ room_between core.now.topology core.now.journal.steps producer.now.no consumer.now.no }
{
    if !producer.feeds(consumer) {
        return None;
    }
    let sub = core.subs.live_of(consumer.no, producer.no)?;
    let left = core.subs.room_of(sub);
    Some(Room {
        sub,
        part: u32::from(consumer.index),
        left,
    })
}

/// Puts the room behind the others, where there is one.
fn push_some(rooms: &mut Vec<Room>, room: Option<Room>) -> Result<(), AllocError>
    ensures { OnOk result (rooms.new.items ≡ and_room rooms.old.items room) }
{
    if let Some(room) = room {
        rooms.push(room)?;
    }
    Ok(())
}
