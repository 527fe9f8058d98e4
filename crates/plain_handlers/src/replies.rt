//! The replies to a chunk.

ghost use Rattle.std.specs.Prelude.{◌≡◌, ◌++◌, IfOk, Bool, map, length, option_copied};
ghost use Rattle.pipe_types.specs.declared.message.Reply.{Reply as ReplyTo};
ghost use Rattle.pipe_types.specs.Handlers.{counted as counted_in, is_crashed as is_crashed_in, ends_batch as ends_batch_in, with_reason as with_reason_in, replies_until as replies_until_in, chunk_replies as chunk_replies_in, is_own_reason as is_own_reason_in, may_pass as may_pass_in, is_own_reply as is_own_reply_in, are_own_replies as are_own_replies_in};
ghost use Rattle.pipe_model.specs.Work.{are_replies_of as are_replies_of_in, are_handled as are_handled_in};
ghost use Rattle.plain_handlers.specs.Tests.{last_test};

use crate::rules::eval;
use crate::same::{same_bytes, same_replies};
use pipe_types::message::{Message, Reply};
use pipe_types::reason::Reason;
use pipe_types::topology::{Kind, StageSpec};
use std::alloc::{AllocError, Global};

/// The most bytes of a payload or a key.
const MAX_BYTES: usize = 65536;

/// The count after one more message.
fn counted_one(count: u64) -> u64
    ensures { result ≡ counted_in count 1 }
{
    count.saturating_add(1)
}

/// The count after so many messages more.
pub fn counted(count: u64, messages: usize) -> u64
    ensures { result ≡ counted_in count messages }
{
    count.saturating_add(messages as u64)
}

pub(crate) fn is_crashed(reply: &Reply) -> bool
    ensures { result ≡ is_crashed_in reply.now }
{
    match reply {
        Reply::Crashed => true,
        _ => false,
    }
}

/// Whether the reply ends its batch, or where `crash_alone` holds its chunk.
fn is_last(crash_alone: bool, reply: &Reply) -> bool
    ensures { result ≡ last_test crash_alone reply.now }
{
    match reply {
        Reply::Crashed => true,
        Reply::Raised(_) => !crash_alone,
        _ => false,
    }
}

/// The answers one after another, up to and with the first that ends the chunk, where `crash_alone` holds, or the batch.
pub fn replies_until(
    alloc: Global,
    crash_alone: bool,
    spec: &StageSpec,
    count: u64,
    messages: &[Message],
) -> Result<Vec<Reply>, AllocError>
    ensures { IfOk result (λ replies. replies.items ≡ replies_until_in (last_test crash_alone) spec.now count messages.now) }
{
    let mut replies = Vec::new(alloc);
    let mut seen = count;
    for message in messages {
        let reply = eval(alloc, spec, seen, message)?;
        let last = is_last(crash_alone, &reply);
        replies.push(reply)?;
        if last {
            return Ok(replies);
        }
        seen = counted_one(seen);
    }
    Ok(replies)
}

/// The stage's own reason, where it has one, in place of the handler's.
fn with_reason(failed: Option<Reason>, reply: Reply) -> Reply
    ensures { result ≡ with_reason_in failed reply }
{
    match reply {
        Reply::Failed(why) => Reply::Failed(failed.unwrap_or(why)),
        Reply::Raised(why) => Reply::Raised(failed.unwrap_or(why)),
        reply => reply,
    }
}

/// The replies to a chunk, ended by the first crash.
fn chunk_replies(
    alloc: Global,
    spec: &StageSpec,
    count: u64,
    messages: &[Message],
) -> Result<Vec<Reply>, AllocError>
    ensures { IfOk result (λ replies. replies.items ≡ chunk_replies_in spec.now count messages.now) }
{
    let mut replies = Vec::new(alloc);
    let mut seen = count;
    for message in messages {
        let reply = eval(alloc, spec, seen, message)?;
        let last = is_crashed(&reply);
        replies.push(with_reason(spec.failed, reply))?;
        if last {
            return Ok(replies);
        }
        seen = counted_one(seen);
    }
    Ok(replies)
}

/// Whether the reason is not that of a sink's fault.
pub(crate) fn is_own_reason(why: &Reason) -> bool
    ensures { result ≡ is_own_reason_in why.now }
{
    !same_bytes(why.as_bytes(), b"sink")
}

/// Whether it is the same message, for one of the stage's batchers, with a payload and a key that are not too long.
fn may_pass(batchers: u16, message: &Message, passed: &Message) -> bool
    ensures { result ≡ may_pass_in batchers message.now passed.now }
{
    passed.no.0 == message.no.0
        && (passed.producer.0 == message.producer.0
            && ((passed.batcher == 0 || passed.batcher < batchers)
                && (passed.payload.len() <= MAX_BYTES && passed.key.len() <= MAX_BYTES)))
}

fn is_own_reply(batchers: u16, message: &Message, reply: &Reply) -> bool
    ensures { result ≡ is_own_reply_in batchers message.now reply.now }
{
    match reply {
        Reply::Pass(passed) => may_pass(batchers, message, passed),
        Reply::Failed(why) => is_own_reason(why),
        Reply::Raised(why) => is_own_reason(why),
        Reply::Crashed => true,
    }
}

/// Whether there is one reply a message and none is a crash, or there are no more replies and the last alone is a crash.
fn are_own_replies(batchers: u16, messages: &[Message], replies: &[Reply]) -> bool
    ensures { result ≡ are_own_replies_in batchers messages.now replies.now }
{
    for i in 0..messages.len() {
        if replies.len() <= i {
            return false;
        }
        if !is_own_reply(batchers, &messages[i], &replies[i]) {
            return false;
        }
        if is_crashed(&replies[i]) {
            return replies.len() == i + 1;
        }
    }
    replies.len() == messages.len()
}

fn are_replies_of(
    alloc: Global,
    spec: &StageSpec,
    count: u64,
    messages: &[Message],
    replies: &[Reply],
) -> Result<bool, AllocError>
    ensures { IfOk result (λ are. are ≡ are_replies_of_in spec.now count messages.now replies.now) }
{
    if let Kind::Own = spec.kind {
        return Ok(are_own_replies(spec.batchers, messages, replies));
    }
    let handled = chunk_replies(alloc, spec, count, messages)?;
    Ok(same_replies(replies, handled.as_slice()))
}

/// Whether the replies are the handler's: the built-in one's, or of the form that an own handler keeps.
pub fn are_handled(
    alloc: Global,
    spec: Option<&StageSpec>,
    count: u64,
    messages: &[Message],
    replies: &[Reply],
) -> Result<bool, AllocError>
    ensures { IfOk result (λ are. are ≡ are_handled_in (option_copied spec.entry) count messages.now replies.now) }
{
    match spec {
        Some(spec) => are_replies_of(alloc, spec, count, messages, replies),
        None => Ok(false),
    }
}
