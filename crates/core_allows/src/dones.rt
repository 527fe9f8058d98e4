//! Replies to the chunk of a processor. What the handlers reply is not tested.

ghost use Rattle.std.specs.Prelude.{◌≡◌, ◌==◌, length, slice_get, IsTrue};
ghost use Rattle.pipe_types.specs.{declared.step.Step.TheVariants.{Done}, Handlers.{is_crashed}};
ghost use Rattle.pipe_model.specs.{Flow.{chunk_by, view_of}, Legal.{may_come}};
ghost use Rattle.core_tables.specs.Tables.{list_in};
ghost use Rattle.core_state.specs.Stands.{Stands};
ghost use Rattle.core_allows.specs.Tested.{may_be_done, answers_each};

use crate::rows::{is_current, is_processor};
use core_state::Core;
use pipe_types::message::Reply;
use pipe_types::numbers::StageNo;

/// Whether the processor may answer its chunk with so many replies: it is live, its job is out, and there is one reply to
/// each message, or they end with the first crash.
pub fn may_be_done(core: &Core, stage: StageNo, replies: &[Reply]) -> bool
    requires stands { Stands core.now }
    ensures tested { result ≡ may_be_done core.now.topology core.now.journal.steps stage replies.now }
    ensures model { IsTrue (may_come core.now.topology core.now.journal.steps (Done stage replies.now)) → IsTrue result }
{
    is_done_by_rows(core, stage, replies)
}

fn is_done_by_rows(core: &Core, stage: StageNo, replies: &[Reply]) -> bool
    requires stands { Stands core.now }
    ensures { result ≡ may_be_done core.now.topology core.now.journal.steps stage replies.now }
{
    core.is_live(stage)
        && is_processor(core, stage)
        && is_current(core, stage, 0)
        && is_answered(core, stage, replies)
}

/// Whether the replies are as many as the messages that run in the stage, or end with the first crash.
fn is_answered(core: &Core, stage: StageNo, replies: &[Reply]) -> bool
    requires stands { Stands core.now }
    ensures { result ≡ answers_each (chunk_by (view_of core.now.topology core.now.journal.steps) stage) replies.now }
{
    is_answered_at(&core.chunks, stage.0 as usize, replies)
}

fn is_answered_at(chunks: &[Vec<u32>], at: usize, replies: &[Reply]) -> bool
    ensures { result ≡ answers_each (list_in (slice_get chunks.now at)) replies.now }
{
    match chunks.get(at) {
        Some(chunk) => answers_each(chunk, replies),
        None => answers_each(&[], replies),
    }
}

/// Whether each message has its reply, up to the first crash.
fn answers_each(chunk: &[u32], replies: &[Reply]) -> bool
    ensures { result ≡ answers_each chunk.now replies.now }
{
    for k in 0..replies.len() {
        if k >= chunk.len() {
            return false;
        }
        if is_crash(&replies[k]) {
            return k + 1 == replies.len();
        }
    }
    chunk.len() == replies.len()
}

fn is_crash(reply: &Reply) -> bool
    ensures { result ≡ is_crashed reply.now }
{
    matches!(reply, Reply::Crashed)
}
