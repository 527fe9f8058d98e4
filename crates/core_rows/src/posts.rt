//! Which jobs are out.

ghost use Rattle.std.specs.Prelude.{◌≡◌, ◌&&◌, Some};
ghost use Rattle.pipe_types.specs.Numbers.{post as post_of};
ghost use Rattle.pipe_model.specs.{Posts.{has_post_out, is_out}, Legal.{is_no_fetch_out, is_producer_role}, Moves.{jobs_out}};
ghost use Rattle.core_state.specs.Stands.{Stands};

use core_state::Core;
use pipe_types::numbers::{Post, StageNo};
use pipe_types::topology::{Role, StageSpec};

/// How many slots a stage has at most.
pub const MOST_SLOTS: u16 = 16;

/// Whether a job of any stage is out.
pub fn is_any_out(core: &Core) -> bool
    requires stands { Stands core.now }
    ensures { result ≡ jobs_out core.now.topology core.now.journal.steps }
{
    for spec in core.topology.stages.as_slice() {
        if has_job_out(core, spec.no) {
            return true;
        }
    }
    false
}

/// Whether a job of the stage is out.
pub fn has_job_out(core: &Core, stage: StageNo) -> bool
    requires stands { Stands core.now }
    ensures { result ≡ has_post_out core.now.journal.steps stage }
{
    for slot in 0..MOST_SLOTS {
        if core.is_out(Post { stage, slot }) {
            return true;
        }
    }
    false
}

/// Whether no producer's fetch is out.
pub fn is_no_fetch_out(core: &Core) -> bool
    requires stands { Stands core.now }
    ensures { result ≡ is_no_fetch_out core.now.topology core.now.journal.steps }
{
    for spec in core.topology.stages.as_slice() {
        if is_fetch_out(core, spec) {
            return false;
        }
    }
    true
}

/// Whether the stage is a producer with a fetch that is out.
pub(crate) fn is_fetch_out(core: &Core, spec: &StageSpec) -> bool
    requires stands { Stands core.now }
    ensures { result ≡ (is_producer_role spec.now.role && is_out core.now.journal.steps (post_of spec.now.no 0)) }
{
    spec.role == Role::Producer
        && core.is_out(Post {
            stage: spec.no,
            slot: 0,
        })
}
