//! The first stage for which a step or a job comes next.

ghost use Rattle.std.specs.Prelude.{◌≡◌, ◌&&◌, ◌||◌, find, option_map, reverse, false, Some};
ghost use Rattle.pipe_types.specs.{declared.step.Step.TheVariants.{Fetch}, Stages.{spec_of}};
ghost use Rattle.pipe_model.specs.{Flow.{inbox}, Legal.{needs_restart, no_post_out, may_dispatch, may_gather, may_come, bound, happened, is_halt, first_unit}};
ghost use Rattle.pipe_model.specs.Moves.{has_job, has_child, first_take};
ghost use Rattle.core_state.specs.Stands.{Stands};

use crate::children::has_child;
use crate::dispatches::may_dispatch;
use crate::gathers::may_gather_first;
use core_rows::jobs::{may_fetch, may_take_first};
use core_rows::rows::is_ready_to_restart;
use core_state::Core;
use pipe_types::numbers::StageNo;
use pipe_types::topology::StageSpec;

/// The first stage that needs a restart and of which no job is out.
pub fn first_to_restart(core: &Core) -> Option<StageNo>
    requires stands { Stands core.now }
    ensures { result ≡ option_map (λ spec. spec.no) (find (λ spec. needs_restart core.now.topology core.now.journal.steps spec.no && no_post_out core.now.topology core.now.journal.steps spec.no) core.now.topology.stages) }
{
    for spec in core.topology.stages.as_slice() {
        if is_ready_to_restart(core, spec) {
            return Some(spec.no);
        }
    }
    None
}

/// The first stage of which a dispatch sends or loses something.
pub fn first_to_dispatch(core: &Core) -> Option<StageNo>
    requires stands { Stands core.now }
    ensures { result ≡ option_map (λ spec. spec.no) (find (λ spec. may_dispatch core.now.topology core.now.journal.steps spec.no) core.now.topology.stages) }
{
    for spec in core.topology.stages.as_slice() {
        if may_dispatch(core, spec) {
            return Some(spec.no);
        }
    }
    None
}

/// The first batcher that may gather the first message of its inbox.
pub fn first_to_gather(core: &Core) -> Option<StageNo>
    requires stands { Stands core.now }
    ensures { result ≡ option_map (λ spec. spec.no) (find (λ spec. may_gather core.now.topology core.now.journal.steps spec.no (first_unit (inbox core.now.topology core.now.journal.steps spec.no))) core.now.topology.stages) }
{
    for spec in core.topology.stages.as_slice() {
        if may_gather_first(core, spec) {
            return Some(spec.no);
        }
    }
    None
}

/// The last stage of which a job may begin.
pub fn last_with_job(core: &Core) -> Option<StageNo>
    requires stands { Stands core.now }
    requires going { happened is_halt core.now.journal.steps ≡ false }
    ensures { result ≡ option_map (λ spec. spec.no) (find (has_job core.now.topology core.now.journal.steps) (reverse core.now.topology.stages)) }
{
    let specs = core.topology.stages.as_slice();
    for back in 0..specs.len() {
        let spec = &specs[specs.len() - 1 - back];
        if has_job(core, spec) {
            return Some(spec.no);
        }
    }
    None
}

/// Whether the stage may begin a fetch, a take or a child.
fn has_job(core: &Core, spec: &StageSpec) -> bool
    requires stands { Stands core.now }
    requires there { spec_of core.now.topology spec.now.no ≡ Some spec.now }
    requires going { happened is_halt core.now.journal.steps ≡ false }
    ensures { result ≡ has_job core.now.topology core.now.journal.steps spec.now }
{
    is_job_next(core, spec)
}

fn is_job_next(core: &Core, spec: &StageSpec) -> bool
    requires stands { Stands core.now }
    requires there { spec_of core.now.topology spec.now.no ≡ Some spec.now }
    requires going { happened is_halt core.now.journal.steps ≡ false }
    ensures { result ≡ (may_come core.now.topology core.now.journal.steps (Fetch spec.now.no (bound core.now.topology core.now.journal.steps spec.now.no))
        || (first_take core.now.topology core.now.journal.steps spec.now (inbox core.now.topology core.now.journal.steps spec.now.no) || has_child core.now.topology core.now.journal.steps spec.now)) }
{
    may_fetch(core, spec) || may_take_first(core, spec) || has_child(core, spec)
}
