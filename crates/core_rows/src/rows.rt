//! The rows of the stages, and what is read off them.

ghost use Rattle.std.specs.Prelude.{◌≡◌, ◌≤◌, ◌&&◌, ◌||◌, not, Some, length};
ghost use Rattle.pipe_types.specs.Stages.{spec_of};
ghost use Rattle.pipe_model.specs.Legal.{needs_restart, no_post_out, may_restart, has_ended, rests, is_producer_role};
ghost use Rattle.core_laws.specs.Columns.{stage_row};
ghost use Rattle.core_state.specs.Stands.{Stands};
ghost use Rattle.core_rows.specs.Rows.{needs_by};

use crate::posts::has_job_out;
use core_state::Core;
use core_state::limits::limit_of;
use core_tables::rows::{StageRow, Totals};
use pipe_types::numbers::StageNo;
use pipe_types::topology::{Role, StageSpec};

/// The row of the stage, or of the control source.
pub(crate) fn row_of(core: &Core, stage: StageNo) -> StageRow
    requires stands { Stands core.now }
    requires within { stage.0 ≤ length core.now.topology.stages }
    ensures { result ≡ stage_row core.now.topology core.now.journal.steps stage }
{
    core.stages[stage.0 as usize]
}

/// Whether the stage needs a restart.
pub(crate) fn needs_restart(core: &Core, spec: &StageSpec) -> bool
    requires stands { Stands core.now }
    requires there { spec_of core.now.topology spec.now.no ≡ Some spec.now }
    ensures { result ≡ needs_restart core.now.topology core.now.journal.steps spec.now.no }
{
    is_to_restart(row_of(core, spec.no), spec.role, core.totals)
}

/// Whether the stage needs a restart and no job of it is out.
pub fn is_ready_to_restart(core: &Core, spec: &StageSpec) -> bool
    requires stands { Stands core.now }
    requires there { spec_of core.now.topology spec.now.no ≡ Some spec.now }
    ensures { result ≡ (needs_restart core.now.topology core.now.journal.steps spec.now.no && no_post_out core.now.topology core.now.journal.steps spec.now.no) }
{
    needs_restart(core, spec) && !has_job_out(core, spec.no)
}

/// Whether the stage's limit allows one more restart now.
pub fn may_restart(core: &Core, stage: StageNo) -> bool
    requires stands { Stands core.now }
    ensures { result ≡ may_restart core.now.topology core.now.journal.steps stage }
{
    let at = limit_of(&core.topology, stage);
    match core.restarts.get(at) {
        Some(limit) => limit.may(core.totals.now),
        None => false,
    }
}

/// Whether the stage is no producer, or its source has ended.
pub(crate) fn is_source_done(core: &Core, spec: &StageSpec) -> bool
    requires stands { Stands core.now }
    requires there { spec_of core.now.topology spec.now.no ≡ Some spec.now }
    ensures { result ≡ (not (is_producer_role spec.now.role) || has_ended core.now.journal.steps spec.now.no) }
{
    spec.role != Role::Producer || row_of(core, spec.no).ended
}

/// Whether a stage of that role with this row needs a restart.
fn is_to_restart(row: StageRow, role: Role, totals: Totals) -> bool
    ensures { result ≡ needs_by row role totals }
{
    row.dead.is_some() && is_let_on(row.ended, role, totals.halted, totals.draining)
}

/// Whether a dead stage of that role is to go on.
#[inline(never)]
fn is_let_on(ended: bool, role: Role, halted: bool, draining: bool) -> bool
    ensures { result ≡ (not halted && not (is_producer_role role && (ended || draining))) }
{
    !halted && !(role == Role::Producer && (ended || draining))
}
