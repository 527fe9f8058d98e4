//! The step that sends.

ghost use Rattle.std.specs.Prelude.{◌≡◌, ℕ, suc, ◌∷◌, [], ◌+◌, ◌≤◌, ◌<◌, length, All, map, drop, option_map, slice_get, IsTrue, true, false, Some, OnOk, OnErr, vec_capacity};
ghost use Rattle.pipe_types.specs.Stages.{spec_of};
ghost use Rattle.pipe_model.specs.{Flow.{is_batcher}, Legal.{allows}};
ghost use Rattle.core_tables.specs.Tables.{named, spare_in, HasRoom};
ghost use Rattle.core_state.specs.Stands.{Holds, Stands};
ghost use Rattle.core_sends.specs.{Losing.{still_waits, left_in, numbers_in, over_of, kept_of, lost_over_size, marked}, Rooms.{planned, served_first}};

use crate::alone::{leave_batches, note_alone};
use crate::batches::begin_all;
use crate::counting::count_all;
use crate::leaving::{keep_waiting, reach};
use crate::losing::{end_over, first_over, lose_all, mark_all, take_out};
use crate::plans::{make_room, plan, plan_batches};
use core_state::{Core, MOST_DUE};
use core_tables::inboxes::deliver_all;
use core_tables::place_table::PlaceTable;
use core_tables::places::place_all;
use pipe_types::numbers::StageNo;
use pipe_types::room::Sent;
use pipe_types::step::Step;
use pipe_types::topology::{Keep, Role, Topology};
use std::alloc::AllocError;
use std::collections::VecDeque;

/// Names each unit by its number in place of where it waits.
fn name_units(units: &mut Vec<Sent>, waiting: &VecDeque<(u32, u32)>)
    requires within { All (λ d. d.unit < length waiting.now.items) units.old.items }
    ensures { units.new.items ≡ map (named (numbers_in waiting.now.items)) units.old.items }
{
    for i in 0..units.len() {
        let sent = units[i];
        units[i] = Sent {
            unit: waiting[sent.unit as usize].1,
            sub: sent.sub,
        };
    }
}

/// Takes the messages out of the stage's queue that were sent, and loses those over its size. Those that were sent stand
/// among the first so many.
fn leave(
    queue: &mut VecDeque<(u32, u32)>,
    places: &mut PlaceTable,
    settled: &mut Vec<u64>,
    stage: StageNo,
    first: usize,
    size: Option<u32>,
    keep: Keep,
    mark: u64,
)
    requires within { first ≤ length queue.old.items }
    requires rest { All (λ unit. still_waits places.old.items stage unit.1 ≡ true) (drop first queue.old.items) }
    requires placed { All (λ unit. (1 ≤ unit.1) × (unit.1 ≤ length places.old.items)) queue.old.items }
    requires settled { length settled.old.items ≡ length places.old.items }
    ensures queue { queue.new.items ≡ kept_of size keep (left_in places.old.items stage queue.old.items) }
    ensures places_len { length places.new.items ≡ length places.old.items }
    ensures placed { (i : ℕ) → slice_get places.new.items i ≡ option_map (lost_over_size (numbers_in (over_of size keep (left_in places.old.items stage queue.old.items))) stage (suc i)) (slice_get places.old.items i) }
    ensures settled_len { length settled.new.items ≡ length settled.old.items }
    ensures marked { (i : ℕ) → slice_get settled.new.items i ≡ option_map (marked (numbers_in (over_of size keep (left_in places.old.items stage queue.old.items))) mark (suc i)) (slice_get settled.old.items i) }
    ensures room { spare_in (Some queue.old) ≤ spare_in (Some queue.new) }
    ensures places_capacity { vec_capacity places.new ≡ vec_capacity places.old }
    ensures settled_capacity { vec_capacity settled.new ≡ vec_capacity settled.old }
{
    keep_waiting(queue, places, stage, first);
    let len = queue.len();
    let from = first_over(size, keep, len);
    let to = end_over(size, keep, len);
    lose_all(places, stage, queue, from, to);
    mark_all(settled, mark, queue, from, to);
    take_out(queue, from, to);
}

/// Appends the dispatch of a stage of messages, of which this was planned. There is room for it, so it takes no memory. The
/// dispatch may also be one that the last step owes.
pub fn send_messages(core: &mut Core, stage: StageNo, sent: Vec<Sent>)
    requires holds { Holds core.old }
    requires messages { is_batcher (spec_of core.old.topology stage) ≡ false }
    requires legal { IsTrue (allows core.old.topology core.old.journal.steps (Step.Dispatch stage)) }
    requires planned { sent.items ≡ planned core.old.topology core.old.journal.steps stage [] }
    requires room { All (HasRoom (length sent.items) core.old.inboxes.items) sent.items }
    requires spare { 1089 ≤ core.old.journal.spare }
    ensures appended { core.new.journal.steps ≡ Step.Dispatch stage ∷ core.old.journal.steps }
    ensures topology { core.new.topology ≡ core.old.topology }
    ensures stands { Stands core.new }
    ensures spare { core.old.journal.spare ≤ core.new.journal.spare + 1 }
{
    let at = stage.0 as usize;
    let Some(spec) = core.topology.stages.find(stage) else {
        unreachable!();
    };
    let size = spec.size;
    let keep = spec.keep;
    let mark = core.journal.len();
    let first = reach(&sent);
    let mut units = sent;
    name_units(&mut units, &core.waiting[at]);
    deliver_all(&mut core.inboxes, &units);
    count_all(&mut core.subs, &units);
    place_all(&mut core.places, stage, &units);
    leave(
        &mut core.waiting[at],
        &mut core.places,
        &mut core.settled,
        stage,
        first,
        size,
        keep,
        mark,
    );
    core.totals.quiet = 0;
    core.journal.push_spare(Step::Dispatch { stage });
}

/// Appends the dispatch of a stage of messages: sends what its subscribers asked for, and loses what is over its size.
/// A batcher's dispatch is not this one.
pub fn dispatch_messages(core: &mut Core, stage: StageNo) -> Result<(), AllocError>
    requires stands { Stands core.old }
    requires messages { is_batcher (spec_of core.old.topology stage) ≡ false }
    requires legal { IsTrue (allows core.old.topology core.old.journal.steps (Step.Dispatch stage)) }
    ensures appended { OnOk result (core.new.journal.steps ≡ Step.Dispatch stage ∷ core.old.journal.steps) }
    ensures unchanged { OnErr result (core.new.journal.steps ≡ core.old.journal.steps) }
    ensures topology { core.new.topology ≡ core.old.topology }
    ensures stands { Stands core.new }
{
    let sent = plan(core, stage, &[])?;
    make_room(core, &sent)?;
    core.journal.reserve(MOST_DUE + 1)?;
    send_messages(core, stage, sent);
    Ok(())
}

/// Appends the dispatch of a batcher, of which this was planned. There is room for it in the inboxes and the journal. Without
/// the memory for the legs nothing is sent.
fn send_batches(
    core: &mut Core,
    stage: StageNo,
    sent: Vec<Sent>,
    served: usize,
) -> Result<(), AllocError>
    requires stands { Stands core.old }
    requires batches { is_batcher (spec_of core.old.topology stage) ≡ true }
    requires legal { IsTrue (allows core.old.topology core.old.journal.steps (Step.Dispatch stage)) }
    requires planned { sent.items ≡ planned core.old.topology core.old.journal.steps stage [] }
    requires served { served ≡ served_first core.old.topology core.old.journal.steps stage }
    requires room { All (HasRoom (length sent.items) core.old.inboxes.items) sent.items }
    requires spare { 1089 ≤ core.old.journal.spare }
    ensures appended { OnOk result (core.new.journal.steps ≡ Step.Dispatch stage ∷ core.old.journal.steps) }
    ensures unchanged { OnErr result (core.new.journal.steps ≡ core.old.journal.steps) }
    ensures topology { core.new.topology ≡ core.old.topology }
    ensures stands { Stands core.new }
{
    let at = stage.0 as usize;
    let mark = core.journal.len();
    let first = reach(&sent);
    let mut units = sent;
    name_units(&mut units, &core.waiting[at]);
    begin_all(&mut core.legs, &mut core.batches, &units)?;
    note_alone(
        &mut core.journal,
        &core.producers,
        &core.waiting[at],
        &core.batches,
        &core.legs,
        served,
        mark,
    );
    deliver_all(&mut core.inboxes, &units);
    count_all(&mut core.subs, &units);
    leave_batches(
        &mut core.waiting[at],
        &mut core.places,
        &mut core.settled,
        &core.batches,
        &core.legs,
        served,
        first,
        mark,
    );
    core.totals.quiet = 0;
    core.journal.push_spare(Step::Dispatch { stage });
    Ok(())
}

/// Appends the dispatch of a batcher: sends the closed batches that its subscribers asked for and pick, and settles those
/// that are served and that nobody picks.
fn dispatch_batches(core: &mut Core, stage: StageNo) -> Result<(), AllocError>
    requires stands { Stands core.old }
    requires batches { is_batcher (spec_of core.old.topology stage) ≡ true }
    requires legal { IsTrue (allows core.old.topology core.old.journal.steps (Step.Dispatch stage)) }
    ensures appended { OnOk result (core.new.journal.steps ≡ Step.Dispatch stage ∷ core.old.journal.steps) }
    ensures unchanged { OnErr result (core.new.journal.steps ≡ core.old.journal.steps) }
    ensures topology { core.new.topology ≡ core.old.topology }
    ensures stands { Stands core.new }
{
    let planned = plan_batches(core, stage)?;
    make_room(core, &planned.sent)?;
    core.journal.reserve(MOST_DUE + 1)?;
    send_batches(core, stage, planned.sent, planned.served)
}

/// Whether the stage is a batcher.
fn is_batcher_stage(topology: &Topology, stage: StageNo) -> bool
    ensures { result ≡ is_batcher (spec_of topology.now stage) }
{
    match topology.stages.find(stage) {
        Some(spec) => matches!(spec.role, Role::Batcher),
        None => false,
    }
}

/// Appends the dispatch of a stage: sends the messages or, of a batcher, the closed batches that its subscribers asked for,
/// and loses the messages over its size. An error leaves the journal as it was.
pub fn dispatch(core: &mut Core, stage: StageNo) -> Result<(), AllocError>
    requires stands { Stands core.old }
    requires legal { IsTrue (allows core.old.topology core.old.journal.steps (Step.Dispatch stage)) }
    ensures appended { OnOk result (core.new.journal.steps ≡ Step.Dispatch stage ∷ core.old.journal.steps) }
    ensures unchanged { OnErr result (core.new.journal.steps ≡ core.old.journal.steps) }
    ensures topology { core.new.topology ≡ core.old.topology }
    ensures stands { Stands core.new }
{
    if is_batcher_stage(&core.topology, stage) {
        return dispatch_batches(core, stage);
    }
    dispatch_messages(core, stage)
}
