//! The test of whether a step may come next.

ghost use Rattle.std.specs.Prelude.{◌≡◌, ◌&&◌, false, IsTrue};
ghost use Rattle.pipe_model.specs.Legal.{allows as allows_by, is_late as is_late_step};
ghost use Rattle.core_state.specs.Stands.{Stands};
ghost use Rattle.core_allows.specs.Tested.{allows_tested, may_come_tested, is_given, is_handled};

use crate::answers::{may_be_late, may_be_written, may_child_end};
use crate::asks::may_ask;
use crate::children::may_start;
use crate::closes::may_close;
use crate::dispatches::may_dispatch;
use crate::dones::may_be_done;
use crate::gathers::may_gather;
use crate::jobs::may_fetch;
use crate::lives::{may_halt, may_kill, may_restart};
use crate::queues::may_take;
use crate::sources::{may_accept, may_be_quiet, may_end};
use crate::turns::{may_drain, may_refuse, may_tick};
use core_rows::jobs::is_halted;
use core_state::Core;
use pipe_types::step::Step;

/// Whether the step may come next. What handlers reply, write and end with is not tested; that there is a reply to each
/// message of a chunk, up to the first crash, is.
pub fn allows(core: &Core, step: &Step) -> bool
    requires stands { Stands core.now }
    ensures tested { result ≡ allows_tested core.now.topology core.now.journal.steps step.now }
    ensures legal { allows_by core.now.topology core.now.journal.steps step.now ≡ (result && is_given core.now.topology core.now.journal.steps step.now) }
    ensures same { is_handled step.now ≡ false → result ≡ allows_by core.now.topology core.now.journal.steps step.now }
    ensures model { IsTrue (allows_by core.now.topology core.now.journal.steps step.now) → IsTrue result }
{
    allows_by_rows(core, step)
}

fn allows_by_rows(core: &Core, step: &Step) -> bool
    requires stands { Stands core.now }
    ensures { result ≡ allows_tested core.now.topology core.now.journal.steps step.now }
{
    (!is_halted(core) || is_late(step)) && may_come(core, step)
}

/// Whether the step is a late answer, which may come once the pipeline has halted.
fn is_late(step: &Step) -> bool
    ensures { result ≡ is_late_step step.now }
{
    matches!(step, Step::Late { .. })
}

/// Whether the row of the step's kind holds.
fn may_come(core: &Core, step: &Step) -> bool
    requires stands { Stands core.now }
    ensures { result ≡ may_come_tested core.now.topology core.now.journal.steps step.now }
{
    match step {
        Step::Ask { sub, n } => may_ask(core, *sub, *n),
        Step::Fetch { stage, n } => may_fetch(core, *stage, *n),
        Step::Accept { stage, records } => may_accept(core, *stage, records.as_slice()),
        Step::Quiet { stage } => may_be_quiet(core, *stage),
        Step::SourceEnd { stage, how } => may_end(core, *stage, *how),
        Step::Dispatch { stage } => may_dispatch(core, *stage),
        Step::Take { stage, sub, k } => may_take(core, *stage, *sub, *k),
        Step::Done { stage, replies } => may_be_done(core, *stage, replies.as_slice()),
        Step::Gather { stage, no } => may_gather(core, *stage, *no),
        Step::Close {
            stage,
            first,
            trigger,
        } => may_close(core, *stage, *first, *trigger),
        Step::Wrote { stage, .. } => may_be_written(core, *stage),
        Step::Child { stage, no, slot } => may_start(core, *stage, *no, *slot),
        Step::ChildEnd { stage, slot, .. } => may_child_end(core, *stage, *slot),
        Step::Kill { stage, why } => may_kill(core, *stage, *why),
        Step::Late {
            stage,
            slot,
            incarnation,
            answer,
        } => may_be_late(core, *stage, *slot, *incarnation, answer),
        Step::Restart { stage } => may_restart(core, *stage),
        Step::Tick { now } => may_tick(core, *now),
        Step::Drain { cause } => may_drain(core, *cause),
        Step::Halt => may_halt(core),
        Step::Refuse { line } => may_refuse(core, *line),
    }
}
