//! Answers to jobs. What the handlers reply, write and end with is not tested.

ghost use Rattle.std.specs.Prelude.{◌≡◌, ℕ, ◌&&◌, not, ◌==◌, IsTrue};
ghost use Rattle.pipe_types.specs.{declared.message.BatchEnd.{BatchEnd as End}, declared.message.Reply.{Reply as ReplyValue}};
ghost use Rattle.pipe_types.specs.{declared.step.Step.TheVariants.{Wrote, ChildEnd, Late}, Numbers.{post}};
ghost use Rattle.pipe_model.specs.{History.{incarnation as incarnation_as}, Posts.{is_out, out_from}, Lives.{is_live}, Legal.{may_come}};
ghost use Rattle.core_state.specs.Stands.{Stands};
ghost use Rattle.core_allows.specs.Tested.{may_be_written, may_child_end, may_be_late, late_form};

use crate::rows::{
    fetch_out, is_batch_processor, is_current, is_out_from, is_processor, is_producer,
    is_supervisor,
};
use crate::sources::are_records;
use core_state::Core;
use pipe_types::numbers::StageNo;
use pipe_types::step::{LateAnswer, SourceHow};

/// Whether the batch processor may end the batch that it took: it is live, and its job is out.
pub fn may_be_written(core: &Core, stage: StageNo) -> bool
    requires stands { Stands core.now }
    ensures tested { result ≡ may_be_written core.now.topology core.now.journal.steps stage }
    ensures model { (bytes : ℕ) (end : End) → IsTrue (may_come core.now.topology core.now.journal.steps (Wrote stage bytes end)) → IsTrue result }
{
    core.is_live(stage) && is_batch_processor(core, stage) && is_current(core, stage, 0)
}

/// Whether the child in the slot may end: the supervisor is live, and the child runs since its last restart.
pub fn may_child_end(core: &Core, stage: StageNo, slot: u16) -> bool
    requires stands { Stands core.now }
    ensures tested { result ≡ may_child_end core.now.topology core.now.journal.steps stage slot }
    ensures model { (reply : ReplyValue) → IsTrue (may_come core.now.topology core.now.journal.steps (ChildEnd stage slot reply)) → IsTrue result }
{
    core.is_live(stage) && is_supervisor(core, stage) && is_current(core, stage, slot)
}

/// Whether the answer may come late: the job is out from that incarnation, which was killed, and the answer has the form
/// that such a job has.
pub fn may_be_late(
    core: &Core,
    stage: StageNo,
    slot: u16,
    incarnation: u32,
    answer: &LateAnswer,
) -> bool
    requires stands { Stands core.now }
    ensures tested { result ≡ may_be_late core.now.topology core.now.journal.steps stage slot incarnation answer.now }
    ensures model { IsTrue (may_come core.now.topology core.now.journal.steps (Late stage slot incarnation answer.now)) → IsTrue result }
{
    is_late_by_rows(core, stage, slot, incarnation, answer)
}

fn is_late_by_rows(
    core: &Core,
    stage: StageNo,
    slot: u16,
    incarnation: u32,
    answer: &LateAnswer,
) -> bool
    requires stands { Stands core.now }
    ensures { result ≡ ((is_out core.now.journal.steps (post stage slot) && out_from core.now.journal.steps (post stage slot) == incarnation)
        && (not (is_live core.now.topology core.now.journal.steps stage && incarnation_as core.now.journal.steps stage == incarnation) && late_form core.now.topology core.now.journal.steps stage answer.now)) }
{
    is_out_from(core, stage, slot, incarnation)
        && is_past(core, stage, incarnation)
        && has_late_form(core, stage, answer)
}

/// Whether that incarnation of the stage does not live.
fn is_past(core: &Core, stage: StageNo, incarnation: u32) -> bool
    requires stands { Stands core.now }
    ensures { result ≡ not (is_live core.now.topology core.now.journal.steps stage && incarnation_as core.now.journal.steps stage == incarnation) }
{
    !(core.is_live(stage) && core.incarnation(stage) == incarnation)
}

/// Whether a job of the stage is answered so.
fn has_late_form(core: &Core, stage: StageNo, answer: &LateAnswer) -> bool
    requires stands { Stands core.now }
    ensures { result ≡ late_form core.now.topology core.now.journal.steps stage answer.now }
{
    match answer {
        LateAnswer::Records(records) => {
            is_producer(core, stage) && are_records(records.as_slice(), fetch_out(core, stage))
        }
        LateAnswer::Quiet => is_producer(core, stage),
        LateAnswer::Source(SourceHow::Limit) => false,
        LateAnswer::Source(_) => is_producer(core, stage),
        LateAnswer::Wrote(..) => is_batch_processor(core, stage),
        LateAnswer::Nothing => is_processor(core, stage) || is_supervisor(core, stage),
    }
}
