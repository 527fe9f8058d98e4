//! Starts of supervised children.

ghost use Rattle.std.specs.Prelude.{◌≡◌, ◌&&◌, ◌==◌, IfOk, if◌then◌else◌, nat_le, nat_lt};
ghost use Rattle.pipe_types.specs.Stages.{spec_of};
ghost use Rattle.pipe_model.specs.{Posts.{in_slot as in_slot_in}, Flow.{is_number as is_number_in, inbox as inbox_in}};
ghost use Rattle.pipe_model.specs.Legal.{max_of as max_of_in, runs_number as runs_number_in, first_unit as first_unit_in, may_start as may_start_in};
ghost use Rattle.plain_lives.specs.Lives.{LivesStand};
ghost use Rattle.plain_queues.specs.Flows.{topology_of, history_of};
ghost use Rattle.plain_places.specs.Standing.{TablesStand};

use crate::gathers::is_next;
use pipe_types::message::Place;
use pipe_types::numbers::{Post, StageNo};
use pipe_types::topology::Topology;
use plain_counts::{in_slot, is_out, is_supervisor};
use plain_places::place_now;
use plain_queues::{Flow, is_number};
use std::alloc::AllocError;

fn max_of(topology: &Topology, stage: StageNo) -> u32
    ensures { result ≡ max_of_in (spec_of topology.now stage) }
{
    match topology.stages.find(stage) {
        Some(spec) => spec.max,
        None => 0,
    }
}

/// Whether there is such a message, and it runs in the stage.
fn runs_number(flow: &Flow<'_>, stage: StageNo, number: Option<u32>) -> bool
    requires { TablesStand (topology_of flow.now) (history_of flow.now) flow.now.tables.now }
    ensures { result ≡ runs_number_in (topology_of flow.now) (history_of flow.now) stage number }
{
    let Some(n) = number else {
        return false;
    };
    match place_now(flow, n) {
        Some(Place::Running(at)) => stage.0 == at.0,
        _ => false,
    }
}

/// Whether the slot is one of the stage's, and the message the first in its inbox.
fn begins(flow: &Flow<'_>, stage: StageNo, n: u32, slot: u16) -> Result<bool, AllocError>
    requires { TablesStand (topology_of flow.now) (history_of flow.now) flow.now.tables.now }
    ensures { IfOk result (λ may. may ≡ (nat_le 1 n && (nat_lt slot (max_of_in (spec_of (topology_of flow.now) stage)) && n == first_unit_in (inbox_in (topology_of flow.now) (history_of flow.now) stage)))) }
{
    let next = is_next(flow, stage, n)?;
    Ok(1 <= n && (u32::from(slot) < max_of(flow.past.topology, stage) && next))
}

/// Whether the slot's message is this one, where it runs on, and else whether the message may begin there.
fn may_run(flow: &Flow<'_>, stage: StageNo, n: u32, slot: u16) -> Result<bool, AllocError>
    requires { TablesStand (topology_of flow.now) (history_of flow.now) flow.now.tables.now }
    ensures { IfOk result (λ may. may ≡ (if runs_number_in (topology_of flow.now) (history_of flow.now) stage (in_slot_in (history_of flow.now) stage slot)
        then is_number_in (in_slot_in (history_of flow.now) stage slot) n
        else nat_le 1 n && (nat_lt slot (max_of_in (spec_of (topology_of flow.now) stage)) && n == first_unit_in (inbox_in (topology_of flow.now) (history_of flow.now) stage)))) }
{
    let last = in_slot(flow.past.steps, stage, slot);
    if runs_number(flow, stage, last) {
        return Ok(is_number(last, n));
    }
    begins(flow, stage, n, slot)
}

/// Whether the supervisor may start a child for the message in the slot.
pub fn may_start(flow: &Flow<'_>, stage: StageNo, n: u32, slot: u16) -> Result<bool, AllocError>
    requires lives { LivesStand (topology_of flow.now) (history_of flow.now) flow.now.past.lives.now }
    requires tables { TablesStand (topology_of flow.now) (history_of flow.now) flow.now.tables.now }
    ensures { IfOk result (λ may. may ≡ may_start_in (topology_of flow.now) (history_of flow.now) stage n slot) }
{
    let runs = may_run(flow, stage, n, slot)?;
    let out = is_out(flow.past.steps, Post { stage, slot });
    let live = flow.past.is_live(stage) && is_supervisor(flow.past.topology, stage);
    Ok(live && (!out && runs))
}
