//! Whether a batcher may gather what stands first in its inbox.

ghost use Rattle.std.specs.Prelude.{◌≡◌, ◌≤◌, ◌&&◌, ◌==◌, nat_le, Some};
ghost use Rattle.pipe_types.specs.{declared.step.Step.TheVariants.{Gather}, Stages.{spec_of}};
ghost use Rattle.pipe_model.specs.{Content.{key_in, content}, Flow.{inbox, open_batch_by, view_of}, Legal.{may_come, lets_in, has_room, first_unit as first_number}};
ghost use Rattle.core_state.specs.Stands.{Stands};

use crate::rows::is_batcher;
use core_moves::gathers::{first_unit, lets_in};
use core_rows::rooms::has_room;
use core_state::Core;
use pipe_types::numbers::{MsgNo, StageNo};
use pipe_types::topology::StageSpec;

/// Whether the batcher may gather the message: it is live, the message is the first of its inbox, what takes from it has
/// asked for more than waits in it, and the open batch of the message's key takes one more.
pub fn may_gather(core: &Core, stage: StageNo, no: MsgNo) -> bool
    requires stands { Stands core.now }
    ensures { result ≡ may_come core.now.topology core.now.journal.steps (Gather stage no) }
{
    core.is_live(stage)
        && is_batcher(core, stage)
        && 1 <= no.0
        && no.0 == first_unit(core, stage)
        && fits_in(core, stage, no)
}

/// Whether there is room for the message's batch, and the open batch of its key takes one more.
fn fits_in(core: &Core, stage: StageNo, no: MsgNo) -> bool
    requires stands { Stands core.now }
    requires least { 1 ≤ no.0 }
    ensures { result ≡ (has_room core.now.topology core.now.journal.steps stage
        && lets_in core.now.topology core.now.journal.steps stage (open_batch_by core.now.journal.steps (view_of core.now.topology core.now.journal.steps) stage (key_in (content core.now.journal.steps no.0)))) }
{
    match core.topology.stages.find(stage) {
        Some(spec) => has_room_for(core, spec, no.0),
        None => false,
    }
}

fn has_room_for(core: &Core, spec: &StageSpec, no: u32) -> bool
    requires stands { Stands core.now }
    requires there { spec_of core.now.topology spec.now.no ≡ Some spec.now }
    requires least { 1 ≤ no }
    ensures { result ≡ (has_room core.now.topology core.now.journal.steps spec.now.no
        && lets_in core.now.topology core.now.journal.steps spec.now.no (open_batch_by core.now.journal.steps (view_of core.now.topology core.now.journal.steps) spec.now.no (key_in (content core.now.journal.steps no)))) }
{
    has_room(core, spec) && lets_in(core, spec, no)
}
