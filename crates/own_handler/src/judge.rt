//! Answers of a handler, each as it is or as a crash.

ghost use Rattle.std.specs.{Prelude.{◌≡◌, ◌++◌, List, length, IfOk, IsTrue}, List.{list_all}, Str.{bytes_eq}};
ghost use Rattle.pipe_types.specs.Handlers.{is_own_reason as is_own_reason_in, is_own_reply as is_own_reply_in, may_pass as may_pass_in, is_own_outcome as is_own_outcome_in, is_successful as is_successful_in, lines_where};
ghost use Rattle.pipe_types.specs.declared.message.Message.{Message};
ghost use Rattle.stage_callback.specs.Callbacks.{is_passed as is_passed_in, is_ready as is_ready_in, is_all_successful as is_all_successful_in, is_prepared_answer, is_batch_answer, is_failed_answer, HasOwnText};
ghost use Rattle.own_handler.specs.Judged.{bare, judged_prepared, judged_reply, judged_outcomes, judged_raised, judged_batch, judged_failed, line_where};

use crate::BatchAnswer;
use pipe_types::bytes::Bytes;
use pipe_types::message::{BatchReply, Message, Outcome, OutcomeList, Reply};
use pipe_types::numbers::{MsgNo, StageNo};
use pipe_types::reason::Reason;
use stage_callback::{FailedReply, Prepared};
use std::alloc::{AllocError, Global};

/// The most bytes of a payload, and of a key.
const MAX_BYTES: usize = 65536;

fn same_bytes(a: &[u8], b: &[u8]) -> bool
    ensures { result ≡ bytes_eq a.now b.now }
{
    a == b
}

/// Whether the reason is not that of a sink's fault.
fn is_own_reason(why: &Reason) -> bool
    ensures { result ≡ is_own_reason_in why.now }
{
    !same_bytes(why.as_bytes(), b"sink")
}

/// The answer to a chunk.
pub(crate) fn judge_prepared(answer: Prepared) -> Prepared
    ensures answer { result ≡ judged_prepared answer }
    ensures shape { IsTrue (is_prepared_answer result) }
{
    match answer {
        Prepared::Raised(why) => {
            if is_own_reason(&why) {
                Prepared::Raised(why)
            } else {
                Prepared::Crashed
            }
        }
        answer => answer,
    }
}

pub(crate) fn is_ready(answer: &Prepared) -> bool
    ensures { result ≡ is_ready_in answer.now }
{
    matches!(answer, Prepared::Ready)
}

/// Whether the reply to a message with this number and producer is of the right shape: that message, for one of the stage's
/// batchers, not too long, or a reason of one's own.
fn is_own_reply(batchers: u16, no: MsgNo, producer: StageNo, reply: &Reply) -> bool
    ensures { result ≡ is_own_reply_in batchers (bare no producer) reply.now }
{
    match reply {
        Reply::Pass(passed) => may_pass(batchers, no, producer, passed),
        Reply::Failed(why) => is_own_reason(why),
        Reply::Raised(why) => is_own_reason(why),
        Reply::Crashed => true,
    }
}

fn may_pass(batchers: u16, no: MsgNo, producer: StageNo, passed: &Message) -> bool
    ensures { result ≡ may_pass_in batchers (bare no producer) passed.now }
{
    passed.no.0 == no.0
        && (passed.producer.0 == producer.0
            && ((passed.batcher == 0 || passed.batcher < batchers)
                && (passed.payload.len() <= MAX_BYTES && passed.key.len() <= MAX_BYTES)))
}

/// The reply to a message with this number and producer, in a stage with so many batchers.
pub(crate) fn judge_reply(batchers: u16, no: MsgNo, producer: StageNo, reply: Reply) -> Reply
    ensures answer { result ≡ judged_reply batchers (bare no producer) reply }
    ensures shape { IsTrue (is_own_reply_in batchers (bare no producer) result) }
{
    if is_own_reply(batchers, no, producer, &reply) {
        reply
    } else {
        Reply::Crashed
    }
}

pub(crate) fn is_passed(reply: &Reply) -> bool
    ensures { result ≡ is_passed_in reply.now }
{
    matches!(reply, Reply::Pass(_))
}

fn is_own_outcome(outcome: &Outcome) -> bool
    ensures { result ≡ is_own_outcome_in outcome.now }
{
    match outcome {
        Outcome::Successful => true,
        Outcome::Failed(why) => is_own_reason(why),
    }
}

fn are_own_outcomes(outcomes: &[Outcome]) -> bool
    ensures { result ≡ list_all is_own_outcome_in outcomes.now }
{
    outcomes.iter().all(|outcome| is_own_outcome(outcome))
}

fn is_successful(outcome: &Outcome) -> bool
    ensures { result ≡ is_successful_in outcome.now }
{
    matches!(outcome, Outcome::Successful)
}

fn are_successful(outcomes: &[Outcome]) -> bool
    ensures { result ≡ list_all is_successful_in outcomes.now }
{
    outcomes.iter().all(|outcome| is_successful(outcome))
}

/// Whether a batch was answered, and every message is successful.
pub fn is_all_successful(reply: &BatchReply) -> bool
    ensures { result ≡ is_all_successful_in reply.now }
{
    match reply {
        BatchReply::Answered(outcomes, _) => are_successful(outcomes.as_slice()),
        BatchReply::Raised(_) | BatchReply::Crashed => false,
    }
}

/// Puts the payload and LF of a successful message behind the text.
fn push_line(text: Vec<u8>, message: &Message, outcome: &Outcome) -> Result<Vec<u8>, AllocError>
    ensures { IfOk result (λ more. more.items ≡ text.items ++ line_where is_successful_in message.now outcome.now) }
{
    let mut more = text;
    if is_successful(outcome) {
        more.extend_from_slice(message.payload.as_slice())?;
        more.push(b'\n')?;
    }
    Ok(more)
}

/// The payload and LF of each successful message.
fn lines_of(
    alloc: Global,
    messages: &[Message],
    outcomes: &[Outcome],
) -> Result<Vec<u8>, AllocError>
    requires { length outcomes.now ≡ length messages.now }
    ensures { IfOk result (λ text. text.items ≡ lines_where is_successful_in messages.now outcomes.now) }
{
    let mut text = Vec::new(alloc);
    for i in 0..messages.len() {
        text = push_line(text, &messages[i], &outcomes[i])?;
    }
    Ok(text)
}

/// The answer to a batch by an outcome for each message.
fn judge_outcomes(
    alloc: Global,
    messages: &[Message],
    outcomes: Vec<Outcome>,
) -> Result<BatchReply, AllocError>
    ensures answer { IfOk result (λ reply. reply ≡ judged_outcomes messages.now outcomes.items) }
    ensures shape { IfOk result (λ reply. IsTrue (is_batch_answer messages.now reply)) }
    ensures own_text { IfOk result (λ reply. HasOwnText messages.now reply) }
{
    if outcomes.len() != messages.len() || !are_own_outcomes(outcomes.as_slice()) {
        return Ok(BatchReply::Crashed);
    }
    let text = lines_of(alloc, messages, outcomes.as_slice())?;
    Ok(BatchReply::Answered(OutcomeList::from_vec(outcomes), Bytes::from_vec(text)))
}

/// The answer to a batch by one reason for all.
fn judge_raised(why: Reason) -> BatchReply
    ensures answer { result ≡ judged_raised why }
    ensures shape { (messages : List Message) → IsTrue (is_batch_answer messages result) }
    ensures own_text { (messages : List Message) → HasOwnText messages result }
{
    if is_own_reason(&why) {
        BatchReply::Raised(why)
    } else {
        BatchReply::Crashed
    }
}

/// The answer that a box makes of its handler's answer to a batch: the same, or where the shape is wrong a crash.
pub fn judge_batch(
    alloc: Global,
    messages: &[Message],
    answer: BatchAnswer,
) -> Result<BatchReply, AllocError>
    ensures answer { IfOk result (λ reply. reply ≡ judged_batch messages.now answer) }
    ensures shape { IfOk result (λ reply. IsTrue (is_batch_answer messages.now reply)) }
    ensures own_text { IfOk result (λ reply. HasOwnText messages.now reply) }
{
    match answer {
        BatchAnswer::Successful => {
            let outcomes = vec![in alloc; Outcome::Successful; messages.len()]?;
            judge_outcomes(alloc, messages, outcomes)
        }
        BatchAnswer::Each(outcomes) => judge_outcomes(alloc, messages, outcomes),
        BatchAnswer::Raised(why) => Ok(judge_raised(why)),
        BatchAnswer::Crashed => Ok(BatchReply::Crashed),
    }
}

/// The answer to a message that failed. The old reason stays in place of one that is not allowed.
pub(crate) fn judge_failed(answer: FailedReply) -> FailedReply
    ensures answer { result ≡ judged_failed answer }
    ensures shape { IsTrue (is_failed_answer result) }
{
    match answer {
        FailedReply::Replace(why) => {
            if is_own_reason(&why) {
                FailedReply::Replace(why)
            } else {
                FailedReply::Raised
            }
        }
        answer => answer,
    }
}
