//! The fetch and the take that a stage may begin.

ghost use Rattle.std.specs.Prelude.{◌≡◌, ◌&&◌, ◌||◌, not, Some, true, false, length, nat_lt, nat_le, if◌then◌else◌, slice_get};
ghost use Rattle.pipe_types.specs.{declared.step.Step.TheVariants.{Fetch}, Numbers.{post as post_of}, Stages.{spec_of}};
ghost use Rattle.pipe_model.specs.{History.{accepted_bytes}, Posts.{is_out}, Lives.{is_live}, Flow.{is_empty, inbox}};
ghost use Rattle.pipe_model.specs.Legal.{bound, fetch_out, fetches_out, has_ended, rests, happened, is_drain, is_halt, is_producer_role, takes_role, has_room, may_come};
ghost use Rattle.pipe_model.specs.Moves.{first_take};
ghost use Rattle.core_state.specs.Stands.{Stands};
ghost use Rattle.core_rows.specs.Jobs.{may_fetch_now, may_take_now};

use crate::rests::is_inbox_empty;
use crate::rooms::{is_passing, room_of, waiting_len};
use crate::rows::row_of;
use core_state::Core;
use pipe_types::numbers::Post;
use pipe_types::topology::{Role, StageSpec};

/// How many records a fetch brings at most.
const MOST_RECORDS: u64 = 1000;

/// Whether the producer may begin a fetch of as many records as it may bring.
pub fn may_fetch(core: &Core, spec: &StageSpec) -> bool
    requires stands { Stands core.now }
    requires there { spec_of core.now.topology spec.now.no ≡ Some spec.now }
    ensures { result ≡ may_come core.now.topology core.now.journal.steps (Fetch spec.now.no (bound core.now.topology core.now.journal.steps spec.now.no)) }
{
    is_fetch_next(core, spec)
}

fn is_fetch_next(core: &Core, spec: &StageSpec) -> bool
    requires stands { Stands core.now }
    requires there { spec_of core.now.topology spec.now.no ≡ Some spec.now }
    ensures { result ≡ may_fetch_now core.now.topology core.now.journal.steps spec.now }
{
    core.is_live(spec.no)
        && spec.role == Role::Producer
        && is_source_ready(core, spec)
        && is_taking_in(core)
        && bound(core, spec) >= 1
}

/// Whether the stage's source has not ended, no fetch of it is out, and it does not rest.
fn is_source_ready(core: &Core, spec: &StageSpec) -> bool
    requires stands { Stands core.now }
    requires there { spec_of core.now.topology spec.now.no ≡ Some spec.now }
    ensures { result ≡ (not (has_ended core.now.journal.steps spec.now.no)
        && (not (is_out core.now.journal.steps (post_of spec.now.no 0)) && not (rests core.now.journal.steps spec.now.no))) }
{
    !has_ended(core, spec) && !is_busy(core, spec) && !is_resting(core, spec)
}

/// Whether the stage's source has ended.
fn has_ended(core: &Core, spec: &StageSpec) -> bool
    requires stands { Stands core.now }
    requires there { spec_of core.now.topology spec.now.no ≡ Some spec.now }
    ensures { result ≡ has_ended core.now.journal.steps spec.now.no }
{
    row_of(core, spec.no).ended
}

/// Whether the stage answered that its source has nothing, and no tick has come since.
fn is_resting(core: &Core, spec: &StageSpec) -> bool
    requires stands { Stands core.now }
    requires there { spec_of core.now.topology spec.now.no ≡ Some spec.now }
    ensures { result ≡ rests core.now.journal.steps spec.now.no }
{
    row_of(core, spec.no).rests
}

/// Whether the stage's first job is out.
pub(crate) fn is_busy(core: &Core, spec: &StageSpec) -> bool
    requires stands { Stands core.now }
    ensures { result ≡ is_out core.now.journal.steps (post_of spec.now.no 0) }
{
    core.is_out(Post {
        stage: spec.no,
        slot: 0,
    })
}

/// Whether the drain has not begun and there are bytes left to accept.
fn is_taking_in(core: &Core) -> bool
    requires stands { Stands core.now }
    ensures { result ≡ (not (happened is_drain core.now.journal.steps) && nat_lt (accepted_bytes core.now.journal.steps) core.now.topology.byte_limit) }
{
    !is_draining(core) && is_below_bytes(core)
}

/// Whether the drain has begun.
pub fn is_draining(core: &Core) -> bool
    requires stands { Stands core.now }
    ensures { result ≡ happened is_drain core.now.journal.steps }
{
    core.totals.draining
}

/// Whether the pipeline has halted.
pub fn is_halted(core: &Core) -> bool
    requires stands { Stands core.now }
    ensures { result ≡ happened is_halt core.now.journal.steps }
{
    core.totals.halted
}

fn is_below_bytes(core: &Core) -> bool
    requires stands { Stands core.now }
    ensures { result ≡ nat_lt (accepted_bytes core.now.journal.steps) core.now.topology.byte_limit }
{
    core.totals.bytes < core.topology.byte_limit
}

/// How many records a fetch of the producer may bring.
pub(crate) fn bound(core: &Core, spec: &StageSpec) -> u64
    requires stands { Stands core.now }
    requires there { spec_of core.now.topology spec.now.no ≡ Some spec.now }
    ensures { result ≡ bound core.now.topology core.now.journal.steps spec.now.no }
{
    let limit = core.topology.record_limit as u64;
    let left = limit.saturating_sub(core.totals.accepted as u64);
    let records = left.saturating_sub(fetches_out(core)).min(MOST_RECORDS);
    if spec.push {
        return records;
    }
    let waiting = waiting_len(core, spec.no) as u64;
    room_of(core, spec).saturating_sub(waiting).min(records)
}

/// How many records all fetches that are out may bring.
fn fetches_out(core: &Core) -> u64
    requires stands { Stands core.now }
    ensures { result ≡ fetches_out core.now.topology core.now.journal.steps }
{
    let mut out = 0;
    for spec in core.topology.stages.as_slice() {
        out += fetched_by(core, spec) as u64;
    }
    out
}

/// How many records the stage's fetch may bring, and 0 where it is no producer or no fetch is out.
fn fetched_by(core: &Core, spec: &StageSpec) -> u32
    requires stands { Stands core.now }
    requires there { spec_of core.now.topology spec.now.no ≡ Some spec.now }
    ensures { result ≡ (if is_producer_role spec.now.role then fetch_out core.now.journal.steps spec.now.no else 0) }
{
    if spec.role == Role::Producer {
        fetch_out(core, spec)
    } else {
        0
    }
}

/// How many records the stage's fetch that is out may bring, and 0 where none is out.
pub(crate) fn fetch_out(core: &Core, spec: &StageSpec) -> u32
    requires stands { Stands core.now }
    requires there { spec_of core.now.topology spec.now.no ≡ Some spec.now }
    ensures { result ≡ fetch_out core.now.journal.steps spec.now.no }
{
    if is_busy(core, spec) {
        row_of(core, spec.no).last_fetch
    } else {
        0
    }
}

/// Whether the stage may take what stands first in its inbox, where nothing is owed and the pipeline has not halted.
pub fn may_take_first(core: &Core, spec: &StageSpec) -> bool
    requires stands { Stands core.now }
    requires there { spec_of core.now.topology spec.now.no ≡ Some spec.now }
    requires going { happened is_halt core.now.journal.steps ≡ false }
    ensures { result ≡ first_take core.now.topology core.now.journal.steps spec.now (inbox core.now.topology core.now.journal.steps spec.now.no) }
{
    is_take_next(core, spec)
}

fn is_take_next(core: &Core, spec: &StageSpec) -> bool
    requires stands { Stands core.now }
    requires there { spec_of core.now.topology spec.now.no ≡ Some spec.now }
    ensures { result ≡ may_take_now core.now.topology core.now.journal.steps spec.now }
{
    core.is_live(spec.no)
        && takes(spec.role)
        && !is_busy(core, spec)
        && has_chunk(core, spec)
        && is_passing(core, spec)
}

/// Whether something stands in the stage's inbox, and the stage takes at least one unit at a time.
fn has_chunk(core: &Core, spec: &StageSpec) -> bool
    requires stands { Stands core.now }
    ensures { result ≡ (not (is_empty (inbox core.now.topology core.now.journal.steps spec.now.no)) && nat_lt spec.now.min spec.now.max) }
{
    !is_inbox_empty(core, spec.no) && spec.min < spec.max
}

/// Whether stages of the role take.
pub(crate) fn takes(role: Role) -> bool
    ensures { result ≡ takes_role role }
{
    matches!(role, Role::Processor | Role::BatchProcessor)
}
