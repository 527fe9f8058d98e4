//! What a stage takes out of its inbox.

ghost use Rattle.std.specs.Prelude.{◌≡◌, ◌||◌, not, length, nat_lt, slice_get, Some};
ghost use Rattle.pipe_types.specs.{declared.step.Step.TheVariants.{Take}, Stages.{spec_of}};
ghost use Rattle.pipe_model.specs.{Flow.{inbox, units_on}, Legal.{may_come, has_role, takes_role, first_sub, chunk_size, feeds_batchers, has_room}};
ghost use Rattle.core_tables.specs.Tables.{items_in};
ghost use Rattle.core_state.specs.Stands.{Stands};

use core_rows::rooms::has_room;
use core_state::Core;
use pipe_types::numbers::{Post, StageNo, SubNo};
use pipe_types::topology::{Role, StageSpec};
use std::collections::VecDeque;

/// Whether the stage may take `k` units of the subscription: it is live and takes, its job is home, the first unit of its
/// inbox came on the subscription, so many make its next chunk, and where it sends to batchers they have room.
pub fn may_take(core: &Core, stage: StageNo, sub: SubNo, k: u32) -> bool
    requires stands { Stands core.now }
    ensures { result ≡ may_come core.now.topology core.now.journal.steps (Take stage sub k) }
{
    core.is_live(stage)
        && does_take(core, stage)
        && !core.is_out(Post { stage, slot: 0 })
        && is_first_on(core, stage, sub)
        && 1 <= k
        && k as usize == chunk_size(core, stage, count_on(core, stage, sub))
        && is_passing(core, stage)
}

/// Whether the stage is one that takes.
fn does_take(core: &Core, stage: StageNo) -> bool
    ensures { result ≡ has_role core.now.topology stage takes_role }
{
    match core.topology.stages.find(stage) {
        Some(spec) => matches!(spec.role, Role::Processor | Role::BatchProcessor),
        None => false,
    }
}

/// Whether the first unit of the stage's inbox came on the subscription.
fn is_first_on(core: &Core, stage: StageNo, sub: SubNo) -> bool
    requires stands { Stands core.now }
    ensures { result ≡ first_sub (inbox core.now.topology core.now.journal.steps stage) sub }
{
    comes_first(&core.inboxes, stage.0 as usize, sub)
}

fn comes_first(inboxes: &[VecDeque<(SubNo, u32)>], at: usize, sub: SubNo) -> bool
    ensures { result ≡ first_sub (items_in (slice_get inboxes.now at)) sub }
{
    match inboxes.get(at) {
        Some(inbox) => match inbox.front() {
            Some(unit) => unit.0 == sub,
            None => false,
        },
        None => false,
    }
}

/// How many units of the stage's inbox came on the subscription.
fn count_on(core: &Core, stage: StageNo, sub: SubNo) -> usize
    requires stands { Stands core.now }
    ensures { result ≡ length (units_on sub (inbox core.now.topology core.now.journal.steps stage)) }
{
    count_at(&core.inboxes, stage.0 as usize, sub)
}

fn count_at(inboxes: &[VecDeque<(SubNo, u32)>], at: usize, sub: SubNo) -> usize
    ensures { result ≡ length (units_on sub (items_in (slice_get inboxes.now at))) }
{
    match inboxes.get(at) {
        Some(inbox) => count_in(inbox, sub),
        None => 0,
    }
}

/// How many units of the queue came on the subscription.
fn count_in(inbox: &VecDeque<(SubNo, u32)>, sub: SubNo) -> usize
    ensures { result ≡ length (units_on sub inbox.now.items) }
{
    inbox
        .iter()
        .filter(|unit| unit.0 == sub)
        .map(|unit| unit.1)
        .count()
}

/// How many of so many units the stage takes at a time.
fn chunk_size(core: &Core, stage: StageNo, units: usize) -> usize
    ensures { result ≡ chunk_size (spec_of core.now.topology stage) units }
{
    match core.topology.stages.find(stage) {
        Some(spec) => (spec.max.saturating_sub(spec.min) as usize).min(units),
        None => 0,
    }
}

/// Whether the stage sends to no batchers, or they have asked for more than waits in it.
fn is_passing(core: &Core, stage: StageNo) -> bool
    requires stands { Stands core.now }
    ensures { result ≡ (not (feeds_batchers (spec_of core.now.topology stage)) || has_room core.now.topology core.now.journal.steps stage) }
{
    match core.topology.stages.find(stage) {
        Some(spec) => does_pass(core, spec),
        None => true,
    }
}

fn does_pass(core: &Core, spec: &StageSpec) -> bool
    requires stands { Stands core.now }
    requires there { spec_of core.now.topology spec.now.no ≡ Some spec.now }
    ensures { result ≡ (not (nat_lt 0 spec.now.batchers) || has_room core.now.topology core.now.journal.steps spec.now.no) }
{
    spec.batchers == 0 || has_room(core, spec)
}
