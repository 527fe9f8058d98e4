//! What the rows of the tables say.

ghost use Rattle.std.specs.Prelude.{◌≡◌, ◌&&◌, ◌==◌, slice_get};
ghost use Rattle.pipe_types.specs.Numbers.{stage as control, post};
ghost use Rattle.pipe_model.specs.{History.{controls}, Posts.{is_out, out_from}};
ghost use Rattle.pipe_model.specs.Legal.{has_role, is_producer_role, is_processor_role, is_batch_processor_role, is_supervisor_role, is_batcher_role, is_current, fetch_out, has_ended, may_control};
ghost use Rattle.core_state.specs.Stands.{Stands};
ghost use Rattle.core_allows.specs.Rows.{from_by, fetched_by};

use core_state::Core;
use core_tables::posts::SLOTS;
use core_tables::rows::{PostRow, StageRow};
use pipe_types::numbers::{Post, StageNo};
use pipe_types::topology::Role;

/// How many control lines are read.
pub(crate) const MOST_CONTROLS: u32 = 10000;

/// Whether the stage is a producer.
pub(crate) fn is_producer(core: &Core, stage: StageNo) -> bool
    ensures { result ≡ has_role core.now.topology stage is_producer_role }
{
    match core.topology.stages.find(stage) {
        Some(spec) => spec.role == Role::Producer,
        None => false,
    }
}

/// Whether the stage is a processor.
pub(crate) fn is_processor(core: &Core, stage: StageNo) -> bool
    ensures { result ≡ has_role core.now.topology stage is_processor_role }
{
    match core.topology.stages.find(stage) {
        Some(spec) => spec.role == Role::Processor,
        None => false,
    }
}

/// Whether the stage is a batch processor.
pub(crate) fn is_batch_processor(core: &Core, stage: StageNo) -> bool
    ensures { result ≡ has_role core.now.topology stage is_batch_processor_role }
{
    match core.topology.stages.find(stage) {
        Some(spec) => spec.role == Role::BatchProcessor,
        None => false,
    }
}

/// Whether the stage is a supervisor.
pub(crate) fn is_supervisor(core: &Core, stage: StageNo) -> bool
    ensures { result ≡ has_role core.now.topology stage is_supervisor_role }
{
    match core.topology.stages.find(stage) {
        Some(spec) => spec.role == Role::Supervisor,
        None => false,
    }
}

/// Whether the stage is a batcher.
pub(crate) fn is_batcher(core: &Core, stage: StageNo) -> bool
    ensures { result ≡ has_role core.now.topology stage is_batcher_role }
{
    match core.topology.stages.find(stage) {
        Some(spec) => spec.role == Role::Batcher,
        None => false,
    }
}

/// Whether the job in the slot is out, from the stage's present incarnation.
pub(crate) fn is_current(core: &Core, stage: StageNo, slot: u16) -> bool
    requires stands { Stands core.now }
    ensures { result ≡ is_current core.now.journal.steps stage slot }
{
    is_out_from(core, stage, slot, core.incarnation(stage))
}

/// Whether the job in the slot is out, from that incarnation of the stage.
pub(crate) fn is_out_from(core: &Core, stage: StageNo, slot: u16, incarnation: u32) -> bool
    requires stands { Stands core.now }
    ensures { result ≡ (is_out core.now.journal.steps (post stage slot) && out_from core.now.journal.steps (post stage slot) == incarnation) }
{
    core.is_out(Post { stage, slot })
        && is_from(
            &core.posts,
            stage.0 as usize * SLOTS + slot as usize,
            incarnation,
        )
}

/// Whether the row says that its job was last put out from this incarnation.
fn is_from(rows: &[PostRow], at: usize, incarnation: u32) -> bool
    ensures { result ≡ from_by (slice_get rows.now at) incarnation }
{
    match rows.get(at) {
        Some(row) => row.from == incarnation,
        None => false,
    }
}

/// How many records the stage's fetch that is out may bring, and 0 where none is out.
pub(crate) fn fetch_out(core: &Core, stage: StageNo) -> u32
    requires stands { Stands core.now }
    ensures { result ≡ fetch_out core.now.journal.steps stage }
{
    if core.is_out(Post { stage, slot: 0 }) {
        last_fetch(&core.stages, stage.0 as usize)
    } else {
        0
    }
}

/// How many records the last fetch of the row's stage might bring, and 0 where the row is not there.
fn last_fetch(rows: &[StageRow], at: usize) -> u32
    ensures { result ≡ fetched_by (slice_get rows.now at) }
{
    match rows.get(at) {
        Some(row) => row.last_fetch,
        None => 0,
    }
}

/// Whether another control line may be read.
pub(crate) fn may_control(core: &Core) -> bool
    requires stands { Stands core.now }
    ensures { result ≡ may_control core.now.journal.steps }
{
    !has_control_ended(core) && controls(core) < MOST_CONTROLS
}

/// Whether the control source has ended.
pub(crate) fn has_control_ended(core: &Core) -> bool
    requires stands { Stands core.now }
    ensures { result ≡ has_ended core.now.journal.steps (control 0) }
{
    core.stages[0].ended
}

/// How many control lines were read.
pub(crate) fn controls(core: &Core) -> u32
    requires stands { Stands core.now }
    ensures { result ≡ controls core.now.journal.steps }
{
    core.totals.controls
}
