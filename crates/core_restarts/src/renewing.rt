//! The rows of a restarted stage and of its pairs.

ghost use Rattle.std.specs.Prelude.{◌≡◌, ℕ, ◌+◌, ◌-◌, ◌^◌, ◌<◌, ◌≤◌, suc, ◌==◌, ◌&&◌, true, false, if◌then◌else◌, option_map, length, slice_get, Some};
ghost use Rattle.pipe_types.specs.{declared.numbers.StageNo.{StageNo as Stage}, Sound.{IsSound}, Stages.{spec_of, feeds as feeds_in}};
ghost use Rattle.stage_subs.specs.Subs.{row_at, is_pair};
ghost use Rattle.core_state.specs.Readings.{lives_by, incarnation_by};
ghost use Rattle.core_restarts.specs.Renewals.{restarted, live_upto, begins, joins, renewed, IsClosed, AreRenewed};

use core_tables::rows::StageRow;
use pipe_types::numbers::StageNo;
use pipe_types::topology::{StageSpec, Topology, feeds};
use stage_subs::Subs;

/// Notes that the stage lives again, in its next incarnation.
pub(crate) fn note_restart(rows: &mut Vec<StageRow>, stage: StageNo)
    requires within { stage.0 < length rows.old.items }
    requires few { incarnation_by (slice_get rows.old.items stage.0) < 2 ^ 32 - 1 }
    ensures rows { (i : ℕ) → slice_get rows.new.items i ≡ (if stage.0 == i then option_map restarted (slice_get rows.old.items i) else slice_get rows.old.items i) }
    ensures len { length rows.new.items ≡ length rows.old.items }
{
    let row = &mut rows[stage.0 as usize];
    row.dead = None;
    row.incarnation += 1;
}

/// Begins the next subscription of each pair of the stage with a stage that lives.
pub(crate) fn renew_all(subs: &mut Subs, topology: &Topology, rows: &[StageRow], stage: StageNo)
    requires sound { IsSound topology.now }
    requires first { 1 ≤ stage.0 }
    requires within { stage.0 ≤ length topology.now.stages }
    requires dead { lives_by (slice_get rows.now stage.0) stage.0 ≡ false }
    requires sized { length rows.now ≡ suc (length topology.now.stages) }
    requires closed { (c p : Stage) → begins topology.now (live_upto (length topology.now.stages) rows.now) stage c p ≡ true → IsClosed (row_at subs.old c p) }
    ensures { AreRenewed topology.now (live_upto (length topology.now.stages) rows.now) stage subs.old subs.new }
{
    let stages = topology.stages.as_slice();
    let restarted = &stages[stage.0 as usize - 1];
    for at in 0..stages.len() {
        let other = &stages[at];
        let lives = does_live(rows, at + 1);
        renew_with(subs, topology, restarted, other, lives);
    }
}

/// Whether the stage of that number is not dead.
fn does_live(rows: &[StageRow], number: usize) -> bool
    requires first { 1 ≤ number }
    requires within { number < length rows.now }
    ensures { result ≡ lives_by (slice_get rows.now number) number }
{
    rows[number].dead.is_none()
}

/// Begins the next subscription of the pair of the two stages, if one of them feeds the other, and the other lives.
fn renew_with(
    subs: &mut Subs,
    topology: &Topology,
    stage: &StageSpec,
    other: &StageSpec,
    lives: bool,
)
    requires sound { IsSound topology.now }
    requires stage_there { spec_of topology.now stage.now.no ≡ Some stage.now }
    requires other_there { spec_of topology.now other.now.no ≡ Some other.now }
    requires closed { (c p : Stage) → (lives && joins topology.now stage.now.no other.now.no c p) ≡ true → IsClosed (row_at subs.old c p) }
    ensures { (c p : Stage) → row_at subs.new c p ≡ renewed topology.now c (lives && joins topology.now stage.now.no other.now.no c p) (row_at subs.old c p) }
{
    if !lives {
        return;
    }
    if feeds(topology, other.no, stage.no) {
        renew_pair(subs, topology, stage, other.no);
    } else if feeds(topology, stage.no, other.no) {
        renew_pair(subs, topology, other, stage.no);
    }
}

/// Begins the next subscription of the consumer with the producer, which feeds it.
fn renew_pair(subs: &mut Subs, topology: &Topology, consumer: &StageSpec, producer: StageNo)
    requires sound { IsSound topology.now }
    requires there { spec_of topology.now consumer.now.no ≡ Some consumer.now }
    requires fed { feeds_in topology.now producer consumer.now.no ≡ true }
    requires closed { IsClosed (row_at subs.old consumer.now.no producer) }
    ensures { (c p : Stage) → row_at subs.new c p ≡ renewed topology.now c (is_pair consumer.now.no producer c p) (row_at subs.old c p) }
{
    let _topology = topology;
    subs.renew(consumer.no, producer, consumer.min, consumer.max);
}
