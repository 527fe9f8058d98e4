//! The messages of the job that is out at a post.

ghost use Rattle.std.specs.Prelude.{◌≡◌, ◌≤◌, true, slice_get, option_map, option_to_list};
ghost use Rattle.pipe_types.specs.Numbers.{message_no};
ghost use Rattle.pipe_model.specs.{Posts.{is_out as is_out_as}, Content.{producer_of as producer_of_as}, Legal.{has_role, is_processor_role, is_supervisor_role}};
ghost use Rattle.core_state.specs.{Readings.{out_by}, Stands.{Holds}};
ghost use Rattle.plain_run.specs.{Jobs.{job_units, named_at as named_at_as}, Works.{WorksStand}};

use crate::works::{Works, started_in, taken_in};
use core_state::Core;
use core_tables::posts::SLOTS;
use core_tables::rows::PostRow;
use pipe_types::numbers::{MsgNo, Post, StageNo};
use pipe_types::topology::{Role, Topology};

/// Number and producer of the message at that place of the chunk or the child that is out at the post.
pub(crate) fn named_at(
    core: &Core,
    works: &Works,
    post: Post,
    at: usize,
) -> Option<(MsgNo, StageNo)>
    requires holds { Holds core.now }
    requires works { WorksStand core.now.topology core.now.journal.steps works.now }
    ensures { result ≡ named_at_as core.now.topology core.now.journal.steps post at }
{
    if !is_out(core, post) {
        return None;
    }
    match unit_at(core, works, post, at) {
        Some(no) => with_producer(core, no),
        None => None,
    }
}

/// Whether the job of the post is out.
pub(crate) fn is_out(core: &Core, post: Post) -> bool
    requires holds { Holds core.now }
    ensures { result ≡ is_out_as core.now.journal.steps post }
{
    is_job_out(
        &core.posts,
        post.stage.0 as usize * SLOTS + post.slot as usize,
        post.slot,
    )
}

/// Whether the slot is one of the table's, and the row says that its job is out.
fn is_job_out(rows: &[PostRow], at: usize, slot: u16) -> bool
    ensures { result ≡ out_by (slice_get rows.now at) slot }
{
    if slot as usize >= SLOTS {
        return false;
    }
    match rows.get(at) {
        Some(row) => row.out,
        None => false,
    }
}

/// The number at that place of the job that is out at the post.
fn unit_at(core: &Core, works: &Works, post: Post, at: usize) -> Option<u32>
    requires holds { Holds core.now }
    requires works { WorksStand core.now.topology core.now.journal.steps works.now }
    requires out { is_out_as core.now.journal.steps post ≡ true }
    ensures { result ≡ slice_get (job_units core.now.topology core.now.journal.steps post) at }
{
    if is_processor(&core.topology, post.stage) {
        return number_at(taken_in(&works.taken, post.stage), at);
    }
    if is_supervisor(&core.topology, post.stage) {
        return child_at(started_in(&works.started, post.stage, post.slot), at);
    }
    None
}

/// Whether the stage is a processor.
fn is_processor(topology: &Topology, stage: StageNo) -> bool
    ensures { result ≡ has_role topology.now stage is_processor_role }
{
    match topology.stages.find(stage) {
        Some(spec) => matches!(spec.role, Role::Processor),
        None => false,
    }
}

/// Whether the stage is a supervisor.
fn is_supervisor(topology: &Topology, stage: StageNo) -> bool
    ensures { result ≡ has_role topology.now stage is_supervisor_role }
{
    match topology.stages.find(stage) {
        Some(spec) => matches!(spec.role, Role::Supervisor),
        None => false,
    }
}

/// The number at that place.
pub(crate) fn number_at(numbers: &[u32], at: usize) -> Option<u32>
    ensures { result ≡ slice_get numbers.now at }
{
    numbers.get(at).copied()
}

/// The message of the child, at place 0.
fn child_at(held: Option<u32>, at: usize) -> Option<u32>
    ensures { result ≡ slice_get (option_to_list held) at }
{
    if at == 0 { held } else { None }
}

/// The message with its producer.
fn with_producer(core: &Core, no: u32) -> Option<(MsgNo, StageNo)>
    requires holds { Holds core.now }
    requires least { 1 ≤ no }
    ensures { result ≡ option_map (λ s. (message_no no, s)) (producer_of_as core.now.journal.steps no) }
{
    match producer_at(&core.producers, no as usize - 1) {
        Some(producer) => Some((MsgNo(no), producer)),
        None => None,
    }
}

/// The producer of the message that was accepted after so many others.
pub(crate) fn producer_at(producers: &[StageNo], others: usize) -> Option<StageNo>
    ensures { result ≡ slice_get producers.now others }
{
    producers.get(others).copied()
}
