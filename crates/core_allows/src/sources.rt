//! What a source answers: records, that it has nothing now, or that it has ended.

ghost use Rattle.std.specs.{Prelude.{◌≡◌, ◌&&◌, not, ◌==◌, nat_le, length}, List.{list_all}};
ghost use Rattle.pipe_types.specs.{declared.step.Step.TheVariants.{Accept, Quiet, SourceEnd}, Lines.{max_bytes}, Numbers.{stage as control}};
ghost use Rattle.pipe_model.specs.{History.{controls}, Lives.{is_live}, Legal.{may_come, are_records, has_role, is_producer_role, is_current, is_limit, same_truth, has_ended}};
ghost use Rattle.core_state.specs.Stands.{Stands};

use crate::rows::{MOST_CONTROLS, controls, fetch_out, has_control_ended, is_current, is_producer};
use core_state::Core;
use pipe_types::bytes::Bytes;
use pipe_types::numbers::StageNo;
use pipe_types::step::SourceHow;

/// How many bytes a record has at most.
const MOST_BYTES: usize = 65536;

/// Whether the producer may answer that it has nothing now: it is live and its fetch is out.
pub fn may_be_quiet(core: &Core, stage: StageNo) -> bool
    requires stands { Stands core.now }
    ensures { result ≡ may_come core.now.topology core.now.journal.steps (Quiet stage) }
{
    core.is_live(stage) && is_producer(core, stage) && is_current(core, stage, 0)
}

/// Whether the producer may bring these records: it is live, its fetch is out, there is at least one and no more than
/// the fetch may bring, and none is too long.
pub fn may_accept(core: &Core, stage: StageNo, records: &[Bytes]) -> bool
    requires stands { Stands core.now }
    ensures { result ≡ may_come core.now.topology core.now.journal.steps (Accept stage records.now) }
{
    core.is_live(stage)
        && is_producer(core, stage)
        && is_current(core, stage, 0)
        && are_records(records, fetch_out(core, stage))
}

/// Whether a fetch that may bring so many may bring these records.
pub(crate) fn are_records(records: &[Bytes], most: u32) -> bool
    ensures { result ≡ are_records records.now most }
{
    !records.is_empty() && records.len() <= most as usize && are_short(records)
}

/// Whether no record is too long.
fn are_short(records: &[Bytes]) -> bool
    ensures { result ≡ list_all (λ r. nat_le (length r) max_bytes) records.now }
{
    records.iter().all(|record| record.len() <= MOST_BYTES)
}

/// Whether the source may end so. Stage 0 is the control source.
pub fn may_end(core: &Core, stage: StageNo, how: SourceHow) -> bool
    requires stands { Stands core.now }
    ensures { result ≡ may_come core.now.topology core.now.journal.steps (SourceEnd stage how) }
{
    if stage.0 == 0 {
        may_control_end(core, how)
    } else {
        may_producer_end(core, stage, how)
    }
}

/// Whether the control source may end so.
fn may_control_end(core: &Core, how: SourceHow) -> bool
    requires stands { Stands core.now }
    ensures { result ≡ (not (has_ended core.now.journal.steps (control 0)) && same_truth (is_limit how) (controls core.now.journal.steps == 10000)) }
{
    let is_limit = how == SourceHow::Limit;
    !has_control_ended(core) && is_limit == (controls(core) == MOST_CONTROLS)
}

/// Whether the producer's source may end so.
fn may_producer_end(core: &Core, stage: StageNo, how: SourceHow) -> bool
    requires stands { Stands core.now }
    ensures { result ≡ (is_live core.now.topology core.now.journal.steps stage
        && (has_role core.now.topology stage is_producer_role && (is_current core.now.journal.steps stage 0 && not (is_limit how)))) }
{
    core.is_live(stage)
        && is_producer(core, stage)
        && is_current(core, stage, 0)
        && how != SourceHow::Limit
}
