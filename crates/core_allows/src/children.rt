//! Children of a supervisor.

ghost use Rattle.std.specs.Prelude.{◌≡◌, slice_get, option_map, if◌then◌else◌, ◌&&◌, ◌==◌, nat_le, nat_lt};
ghost use Rattle.pipe_types.specs.{declared.step.Step.TheVariants.{Child}, Stages.{spec_of}};
ghost use Rattle.pipe_model.specs.{Posts.{in_slot}, Flow.{inbox, is_number}, Legal.{may_come, runs_number, max_of, first_unit as first_number}};
ghost use Rattle.core_laws.specs.Columns.{child_row};
ghost use Rattle.core_state.specs.Stands.{Stands, child_of};
ghost use Rattle.core_allows.specs.Rows.{starts_by};

use crate::rows::is_supervisor;
use consumer_sup::Children;
use core_moves::gathers::first_unit;
use core_state::Core;
use pipe_types::numbers::{MsgNo, Post, StageNo};

/// Whether a child may start in the slot for the message: the supervisor is live, no child of the slot is out, and the
/// message runs again in it, or else is the first of the inbox and the slot is one of the stage's.
pub fn may_start(core: &Core, stage: StageNo, no: MsgNo, slot: u16) -> bool
    requires stands { Stands core.now }
    ensures { result ≡ may_come core.now.topology core.now.journal.steps (Child stage no slot) }
{
    core.is_live(stage)
        && is_supervisor(core, stage)
        && !core.is_out(Post { stage, slot })
        && starts_in(core, stage, no, slot)
}

/// Whether the message runs again in the slot, or is the first of the inbox and the slot is a free one of the stage's.
fn starts_in(core: &Core, stage: StageNo, no: MsgNo, slot: u16) -> bool
    requires stands { Stands core.now }
    ensures { result ≡ (if runs_number core.now.topology core.now.journal.steps stage (in_slot core.now.journal.steps stage slot)
        then is_number (in_slot core.now.journal.steps stage slot) no.0
        else nat_le 1 no.0 && (nat_lt slot (max_of (spec_of core.now.topology stage)) && no.0 == first_number (inbox core.now.topology core.now.journal.steps stage))) }
{
    starts_by(
        held_in(core, stage, slot),
        no,
        slot,
        most_slots(core, stage),
        first_unit(core, stage),
    )
}

/// Whether the message is the one that the slot holds, or where it holds none the first, in one of so many slots.
fn starts_by(held: Option<MsgNo>, no: MsgNo, slot: u16, most: u32, first: u32) -> bool
    ensures { result ≡ starts_by held no.0 slot most first }
{
    match held {
        Some(held) => held.0 == no.0,
        None => 1 <= no.0 && u32::from(slot) < most && no.0 == first,
    }
}

/// The message that runs, or runs again, in the slot.
fn held_in(core: &Core, stage: StageNo, slot: u16) -> Option<MsgNo>
    requires stands { Stands core.now }
    ensures { result ≡ option_map (λ child. child.no) (child_row core.now.topology core.now.journal.steps stage slot) }
{
    held_by(&core.children, stage.0 as usize, slot)
}

/// The message of the child in the slot.
fn held_by(children: &[Children], at: usize, slot: u16) -> Option<MsgNo>
    ensures { result ≡ option_map (λ child. child.no) (child_of (slice_get children.now at) slot) }
{
    match children.get(at) {
        Some(children) => children.holds(slot),
        None => None,
    }
}

/// How many slots the stage has.
fn most_slots(core: &Core, stage: StageNo) -> u32
    ensures { result ≡ max_of (spec_of core.now.topology stage) }
{
    match core.topology.stages.find(stage) {
        Some(spec) => spec.max,
        None => 0,
    }
}
