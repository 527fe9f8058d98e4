//! The rules of the built-in kinds, each on one message.

ghost use Rattle.std.specs.{Prelude.{◌≡◌, ◌+◌, ◌++◌, ◌^◌, ◌<◌, IsTrue, IfOk, length}, List.{list_all}};
ghost use Rattle.pipe_types.specs.{Reason.{IsReasonText}, Handlers.{begins_with, eval, rule_reply, rules_reply}};
ghost use Rattle.stage_callback.specs.Callbacks.{is_countable};

use crate::copies::copy_bytes;
use pipe_types::bytes::Bytes;
use pipe_types::fields::field;
use pipe_types::message::{Message, Reply};
use pipe_types::reason::Reason;
use pipe_types::topology::{Rule, StageSpec};
use std::alloc::{AllocError, Global};

/// The most bytes of a payload.
const MAX_PAYLOAD_BYTES: usize = 65536;

/// The reply to a message where `count` messages were seen before.
pub(crate) fn evaluate(
    alloc: Global,
    spec: &StageSpec,
    count: u64,
    message: Message,
) -> Result<Reply, AllocError>
    requires { IsTrue (list_all is_countable spec.now.rules) }
    ensures { IfOk result (λ reply. reply ≡ eval spec.now count message) }
{
    apply_rules(
        alloc,
        spec.rules.as_slice(),
        count.saturating_add(1),
        message,
    )
}

/// The reply of these rules, in order, to a message that makes the count this one. The first reply that is no pass
/// is the answer.
fn apply_rules(
    alloc: Global,
    rules: &[Rule],
    count: u64,
    message: Message,
) -> Result<Reply, AllocError>
    requires { IsTrue (list_all is_countable rules.now) }
    ensures { IfOk result (λ reply. reply ≡ rules_reply count rules.now message) }
{
    let mut message = message;
    for rule in rules {
        match apply_rule(alloc, rule, count, message)? {
            Reply::Pass(passed) => message = passed,
            reply => return Ok(reply),
        }
    }
    Ok(Reply::Pass(message))
}

/// The reply of one rule. A message that passes is moved, and only what the rule changes takes memory.
fn apply_rule(alloc: Global, rule: &Rule, count: u64, message: Message) -> Result<Reply, AllocError>
    requires { IsTrue (is_countable rule.now) }
    ensures { IfOk result (λ reply. reply ≡ rule_reply count rule.now message) }
{
    match rule {
        Rule::Pass => Ok(Reply::Pass(message)),
        Rule::Prefix(text) => prefix(alloc, text.as_slice(), message),
        Rule::Require(text) => Ok(require(text.as_slice(), message)),
        Rule::Route(n, batcher, value) => Ok(route(*n, *batcher, value.as_slice(), message)),
        Rule::Key(n) => key(alloc, *n, message),
        Rule::Flush(text) => Ok(flush(text.as_slice(), message)),
        Rule::Raise(text) => Ok(raise(text.as_slice(), message)),
        Rule::Crash(text) => Ok(crash(text.as_slice(), message)),
        Rule::FailEvery(every) => Ok(fail_every(count, *every, message)),
    }
}

/// Puts the text before the payload, and fails a payload that is then too long.
fn prefix(alloc: Global, text: &[u8], message: Message) -> Result<Reply, AllocError>
    ensures { IfOk result (λ reply. reply ≡ rule_reply 0 (Rule.Prefix text.now) message) }
{
    if text.len() + message.payload.len() > MAX_PAYLOAD_BYTES {
        return Ok(Reply::Failed(reason(b"long")));
    }
    let payload = joined(alloc, text, message.payload.as_slice())?;
    let mut message = message;
    message.payload = payload;
    Ok(Reply::Pass(message))
}

fn joined(alloc: Global, front: &[u8], back: &[u8]) -> Result<Bytes, AllocError>
    requires { length front.now + length back.now < 2 ^ 64 }
    ensures { IfOk result (λ bytes. bytes ≡ front.now ++ back.now) }
{
    let mut bytes = Vec::with_capacity(alloc, front.len() + back.len())?;
    bytes.extend_from_slice(front)?;
    bytes.extend_from_slice(back)?;
    Ok(Bytes::from_vec(bytes))
}

fn require(text: &[u8], message: Message) -> Reply
    ensures { result ≡ rule_reply 0 (Rule.Require text.now) message }
{
    if begins(&message, text) {
        Reply::Pass(message)
    } else {
        Reply::Failed(reason(b"require"))
    }
}

fn route(n: u8, batcher: u16, value: &[u8], message: Message) -> Reply
    ensures { result ≡ rule_reply 0 (Rule.Route n batcher value.now) message }
{
    if field(message.payload.as_slice(), n) == value {
        let mut message = message;
        message.batcher = batcher;
        return Reply::Pass(message);
    }
    Reply::Pass(message)
}

fn key(alloc: Global, n: u8, message: Message) -> Result<Reply, AllocError>
    ensures { IfOk result (λ reply. reply ≡ rule_reply 0 (Rule.Key n) message) }
{
    let key = copy_bytes(alloc, field(message.payload.as_slice(), n))?;
    let mut message = message;
    message.key = key;
    Ok(Reply::Pass(message))
}

fn flush(text: &[u8], message: Message) -> Reply
    ensures { result ≡ rule_reply 0 (Rule.Flush text.now) message }
{
    if begins(&message, text) {
        let mut message = message;
        message.flush = true;
        return Reply::Pass(message);
    }
    Reply::Pass(message)
}

fn raise(text: &[u8], message: Message) -> Reply
    ensures { result ≡ rule_reply 0 (Rule.Raise text.now) message }
{
    if begins(&message, text) {
        return Reply::Raised(reason(b"raise"));
    }
    Reply::Pass(message)
}

fn crash(text: &[u8], message: Message) -> Reply
    ensures { result ≡ rule_reply 0 (Rule.Crash text.now) message }
{
    if begins(&message, text) {
        return Reply::Crashed;
    }
    Reply::Pass(message)
}

fn fail_every(count: u64, every: u32, message: Message) -> Reply
    requires { 0 < every }
    ensures { result ≡ rule_reply count (Rule.FailEvery every) message }
{
    if count % u64::from(every) == 0 {
        return Reply::Failed(reason(b"every"));
    }
    Reply::Pass(message)
}

fn begins(message: &Message, text: &[u8]) -> bool
    ensures { result ≡ begins_with text.now message.now.payload }
{
    message.payload.as_slice().starts_with(text)
}

pub(crate) fn reason(word: &[u8]) -> Reason
    requires { IsReasonText word.now }
    ensures { result ≡ word.now }
{
    match Reason::new(word) {
        Some(reason) => reason,
        None => unreachable!(),
    }
}
