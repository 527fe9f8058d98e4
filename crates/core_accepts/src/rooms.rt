//! What the subscribers of a stage asked for and did not get yet.

ghost use Rattle.std.specs.Prelude.{◌≡◌, ◌≤◌, length, sum_by};
ghost use Rattle.core_accepts.specs.Rooms.{open_between};

use pipe_types::topology::StageSpec;
use stage_subs::Subs;

/// The open demand of the live subscriptions on the producer, in units.
pub(crate) fn room_on(subs: &Subs, producer: &StageSpec, stages: &[StageSpec]) -> u64
    requires few { length stages.now ≤ 64 }
    ensures { result ≡ sum_by (open_between subs.now producer.now) stages.now }
{
    let mut room = 0;
    for consumer in stages {
        room += u64::from(open_of(subs, producer, consumer));
    }
    room
}

/// The open demand of the pair's live subscription, in units.
fn open_of(subs: &Subs, producer: &StageSpec, consumer: &StageSpec) -> u32
    ensures { result ≡ open_between subs.now producer.now consumer.now }
{
    if !producer.feeds(consumer) {
        return 0;
    }
    match subs.live_of(consumer.no, producer.no) {
        Some(sub) => subs.room_of(sub),
        None => 0,
    }
}
