//! Whether a child may start in a supervisor.

ghost use Rattle.std.specs.Prelude.{◌≡◌, ◌<◌, ◌&&◌, ◌||◌, nat_lt, nat_le, Some, false, slice_get, is_some};
ghost use Rattle.pipe_types.specs.{declared.step.Step.TheVariants.{Child}, Numbers.{message_no}, Stages.{spec_of}};
ghost use Rattle.pipe_model.specs.{Flow.{inbox}, Legal.{allows, happened, is_halt, first_unit as first_number}, Moves.{has_child, next_in_slot}};
ghost use Rattle.core_laws.specs.Columns.{child_row};
ghost use Rattle.core_state.specs.Stands.{Stands, child_of};
ghost use Rattle.core_moves.specs.Children.{starts_now, has_message_now};

use crate::gathers::first_unit;
use consumer_sup::Children;
use core_rows::posts::MOST_SLOTS;
use core_state::Core;
use pipe_types::numbers::{Post, StageNo};
use pipe_types::topology::{Role, StageSpec};

/// Whether a child may start in one of the supervisor's slots.
pub(crate) fn has_child(core: &Core, spec: &StageSpec) -> bool
    requires stands { Stands core.now }
    requires there { spec_of core.now.topology spec.now.no ≡ Some spec.now }
    requires going { happened is_halt core.now.journal.steps ≡ false }
    ensures { result ≡ has_child core.now.topology core.now.journal.steps spec.now }
{
    for slot in 0..MOST_SLOTS {
        if may_start(core, spec, slot) {
            return true;
        }
    }
    false
}

/// Whether a child may start in the slot.
fn may_start(core: &Core, spec: &StageSpec, slot: u16) -> bool
    requires stands { Stands core.now }
    requires there { spec_of core.now.topology spec.now.no ≡ Some spec.now }
    requires going { happened is_halt core.now.journal.steps ≡ false }
    ensures { result ≡ allows core.now.topology core.now.journal.steps (Child spec.now.no (message_no (next_in_slot core.now.topology core.now.journal.steps spec.now.no slot)) slot) }
{
    is_start_next(core, spec, slot)
}

fn is_start_next(core: &Core, spec: &StageSpec, slot: u16) -> bool
    requires stands { Stands core.now }
    ensures { result ≡ starts_now core.now.topology core.now.journal.steps spec.now slot }
{
    core.is_live(spec.no)
        && spec.role == Role::Supervisor
        && !core.is_out(Post {
            stage: spec.no,
            slot,
        })
        && has_message(core, spec, slot)
}

/// Whether a message runs again in the slot, or one stands in the inbox and the slot is one of the stage's.
fn has_message(core: &Core, spec: &StageSpec, slot: u16) -> bool
    requires stands { Stands core.now }
    ensures { result ≡ has_message_now core.now.topology core.now.journal.steps spec.now slot }
{
    runs_in_slot(core, spec.no, slot)
        || (1 <= first_unit(core, spec.no) && u32::from(slot) < spec.max)
}

/// Whether a message runs in the slot.
fn runs_in_slot(core: &Core, stage: StageNo, slot: u16) -> bool
    requires stands { Stands core.now }
    ensures { result ≡ is_some (child_row core.now.topology core.now.journal.steps stage slot) }
{
    is_held(&core.children, stage.0 as usize, slot)
}

/// Whether the slot has a child.
fn is_held(children: &[Children], at: usize, slot: u16) -> bool
    ensures { result ≡ is_some (child_of (slice_get children.now at) slot) }
{
    match children.get(at) {
        Some(children) => has_child_at(children, slot),
        None => false,
    }
}

fn has_child_at(children: &Children, slot: u16) -> bool
    ensures { result ≡ is_some (child_of (Some children.now) slot) }
{
    children.holds(slot).is_some()
}
