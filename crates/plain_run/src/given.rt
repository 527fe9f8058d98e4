//! Whether an answer is the handlers'.

ghost use Rattle.std.specs.Prelude.{◌≡◌, ◌∷◌, [], true, IfOk, IsTrue};
ghost use Rattle.pipe_types.specs.{Stages.{spec_of}, Numbers.{post}};
ghost use Rattle.pipe_model.specs.{Flow.{first_in}, Posts.{is_out}, Work.{count, chunk_of as chunk_as, batch_of as batch_as, child_of as child_as, are_handled as are_handled_as}};
ghost use Rattle.pipe_model.specs.Legal.{has_role, is_processor_role, ends_batch};
ghost use Rattle.core_state.specs.Stands.{Holds, Stands};
ghost use Rattle.core_allows.specs.Tested.{allows_tested, is_given as is_given_as};
ghost use Rattle.plain_run.specs.Works.{WorksStand, numbers_at};

use crate::works::{Works, count_in, started_in, taken_in};
use core_state::Core;
use core_tables::rows::BatchRow;
use core_takes::contents::copies_of;
use pipe_types::message::{BatchEnd, Message, Reply};
use pipe_types::numbers::StageNo;
use pipe_types::step::{LateAnswer, Step};
use plain_handlers::{are_handled, is_batch_handled};
use std::alloc::AllocError;
use std::slice;

/// Whether what the step has of handlers is theirs. All else of the step was tested.
pub(crate) fn is_given(core: &Core, works: &Works, step: &Step) -> Result<bool, AllocError>
    requires stands { Stands core.now }
    requires works { WorksStand core.now.topology core.now.journal.steps works.now }
    requires tested { IsTrue (allows_tested core.now.topology core.now.journal.steps step.now) }
    ensures { IfOk result (λ yes. yes ≡ is_given_as core.now.topology core.now.journal.steps step.now) }
{
    match step {
        Step::Done { stage, replies } => are_replies(core, works, *stage, replies.as_slice()),
        Step::Wrote { stage, bytes, end } => is_end(core, works, *stage, *bytes, end),
        Step::ChildEnd { stage, slot, reply } => is_reply(core, works, *stage, *slot, reply),
        Step::Late {
            stage,
            answer: LateAnswer::Wrote(bytes, end),
            ..
        } => is_end(core, works, *stage, *bytes, end),
        _ => Ok(true),
    }
}

/// Whether the replies are the handlers' to the chunk that the processor took.
fn are_replies(
    core: &Core,
    works: &Works,
    stage: StageNo,
    replies: &[Reply],
) -> Result<bool, AllocError>
    requires holds { Holds core.now }
    requires works { WorksStand core.now.topology core.now.journal.steps works.now }
    requires processor { has_role core.now.topology stage is_processor_role ≡ true }
    ensures { IfOk result (λ yes. yes ≡ are_handled_as (spec_of core.now.topology stage) (count core.now.topology core.now.journal.steps stage) (chunk_as core.now.topology core.now.journal.steps stage) replies.now) }
{
    let messages = chunk_of(core, works, stage)?;
    let spec = core.topology.stages.find(stage);
    are_handled(
        core.alloc,
        spec,
        count_in(&works.counts, stage),
        &messages,
        replies,
    )
}

/// The messages of the chunk that the processor took, as they stand now.
fn chunk_of(core: &Core, works: &Works, stage: StageNo) -> Result<Vec<Message>, AllocError>
    requires holds { Holds core.now }
    requires works { WorksStand core.now.topology core.now.journal.steps works.now }
    requires processor { has_role core.now.topology stage is_processor_role ≡ true }
    ensures { IfOk result (λ messages. messages.items ≡ chunk_as core.now.topology core.now.journal.steps stage) }
{
    copies_of(core, taken_in(&works.taken, stage))
}

/// Whether the batch processor's handlers and its sink end the batch that it took so, with so many bytes written.
fn is_end(
    core: &Core,
    works: &Works,
    stage: StageNo,
    bytes: u64,
    end: &BatchEnd,
) -> Result<bool, AllocError>
    requires holds { Holds core.now }
    requires works { WorksStand core.now.topology core.now.journal.steps works.now }
    ensures { IfOk result (λ yes. yes ≡ ends_batch core.now.topology core.now.journal.steps stage bytes end.now) }
{
    let messages = batch_of(core, works, stage)?;
    let spec = core.topology.stages.find(stage);
    is_batch_handled(
        core.alloc,
        spec,
        count_in(&works.counts, stage),
        &messages,
        bytes,
        end,
    )
}

/// The messages of the batch that the batch processor took, as they stand now.
pub(crate) fn batch_of(
    core: &Core,
    works: &Works,
    stage: StageNo,
) -> Result<Vec<Message>, AllocError>
    requires holds { Holds core.now }
    requires works { WorksStand core.now.topology core.now.journal.steps works.now }
    ensures { IfOk result (λ messages. messages.items ≡ batch_as core.now.topology core.now.journal.steps stage) }
{
    let no = first_of(taken_in(&works.taken, stage));
    copies_of(core, numbers_at(&core.batches, no))
}

/// The first of the numbers, and 0 where there is none.
fn first_of(numbers: &[u32]) -> u32
    ensures { result ≡ first_in numbers.now }
{
    match numbers.first() {
        Some(first) => *first,
        None => 0,
    }
}

/// The messages of the closed batch with that number, from 1, and none where there is no such batch.
pub(crate) fn numbers_at(batches: &[BatchRow], no: u32) -> &[u32]
    ensures { result.now ≡ numbers_at batches.now no }
{
    if no == 0 {
        return &[];
    }
    match batches.get(no as usize - 1) {
        Some(row) => row.numbers.as_slice(),
        None => &[],
    }
}

/// Whether the reply is the handlers' to the message of the child that is out in the slot.
fn is_reply(
    core: &Core,
    works: &Works,
    stage: StageNo,
    slot: u16,
    reply: &Reply,
) -> Result<bool, AllocError>
    requires holds { Holds core.now }
    requires works { WorksStand core.now.topology core.now.journal.steps works.now }
    requires out { is_out core.now.journal.steps (post stage slot) ≡ true }
    ensures { IfOk result (λ yes. yes ≡ are_handled_as (spec_of core.now.topology stage) 0 (child_as core.now.journal.steps stage slot) (reply.now ∷ [])) }
{
    let messages = child_of(core, works, stage, slot)?;
    let spec = core.topology.stages.find(stage);
    are_handled(core.alloc, spec, 0, &messages, slice::from_ref(reply))
}

/// The message of the child that is out in the slot, as it stands now.
fn child_of(
    core: &Core,
    works: &Works,
    stage: StageNo,
    slot: u16,
) -> Result<Vec<Message>, AllocError>
    requires holds { Holds core.now }
    requires works { WorksStand core.now.topology core.now.journal.steps works.now }
    requires out { is_out core.now.journal.steps (post stage slot) ≡ true }
    ensures { IfOk result (λ messages. messages.items ≡ child_as core.now.journal.steps stage slot) }
{
    match started_in(&works.started, stage, slot) {
        Some(no) => copies_of(core, &[no]),
        None => Ok(Vec::new(core.alloc)),
    }
}
