//! The rules of a handler, each on one message.

ghost use Rattle.std.specs.Prelude.{◌≡◌, ◌+◌, ◌++◌, ◌^◌, ◌<◌, ◌%◌, IfOk, length};
ghost use Rattle.pipe_types.specs.{Reason.{IsReasonText}, Handlers.{begins_with, eval as eval_in, rule_reply as rule_reply_in, rules_reply as rules_reply_in}};

use pipe_types::bytes::Bytes;
use pipe_types::fields::field;
use pipe_types::message::{Message, Reply};
use pipe_types::reason::Reason;
use pipe_types::topology::{Rule, StageSpec};
use std::alloc::{AllocError, Global};

/// The most bytes of a payload.
const MAX_PAYLOAD_BYTES: usize = 65536;

/// The remainder, and the number itself where it is divided by 0.
#[tactic(auto, using(crate::proofs::Remainders::by_zero))]
pub fn remainder(a: u64, b: u64) -> u64
    ensures { result ≡ a % b }
{
    if b == 0 {
        return a;
    }
    a % b
}

fn copy_bytes(alloc: Global, bytes: &[u8]) -> Result<Bytes, AllocError>
    ensures { IfOk result (λ copied. copied ≡ bytes.now) }
{
    Ok(Bytes::from_vec(Vec::from_slice(alloc, bytes)?))
}

/// A copy of the message.
pub fn copy_message(alloc: Global, message: &Message) -> Result<Message, AllocError>
    ensures { IfOk result (λ copied. copied ≡ message.now) }
{
    Ok(Message {
        no: message.no,
        producer: message.producer,
        payload: copy_bytes(alloc, message.payload.as_slice())?,
        batcher: message.batcher,
        key: copy_bytes(alloc, message.key.as_slice())?,
        flush: message.flush,
    })
}

/// The handler's reply to one message, where it has seen `count` messages before.
pub fn eval(
    alloc: Global,
    spec: &StageSpec,
    count: u64,
    message: &Message,
) -> Result<Reply, AllocError>
    ensures { IfOk result (λ reply. reply ≡ eval_in spec.now count message.now) }
{
    let copied = copy_message(alloc, message)?;
    rules_reply(
        alloc,
        count.saturating_add(1),
        spec.rules.as_slice(),
        copied,
    )
}

/// The rules in order, on the message as it then stands.
fn rules_reply(
    alloc: Global,
    count: u64,
    rules: &[Rule],
    message: Message,
) -> Result<Reply, AllocError>
    ensures { IfOk result (λ reply. reply ≡ rules_reply_in count rules.now message) }
{
    let mut message = message;
    for rule in rules {
        match rule_reply(alloc, count, rule, message)? {
            Reply::Pass(passed) => message = passed,
            reply => return Ok(reply),
        }
    }
    Ok(Reply::Pass(message))
}

/// What one rule makes of a message, at this count.
fn rule_reply(alloc: Global, count: u64, rule: &Rule, message: Message) -> Result<Reply, AllocError>
    ensures { IfOk result (λ reply. reply ≡ rule_reply_in count rule.now message) }
{
    match rule {
        Rule::Pass => Ok(Reply::Pass(message)),
        Rule::Prefix(text) => prefix(alloc, text.as_slice(), message),
        Rule::Require(text) => Ok(require(text.as_slice(), message)),
        Rule::Route(n, batcher, value) => Ok(route(*n, *batcher, value.as_slice(), message)),
        Rule::Key(n) => key(alloc, *n, message),
        Rule::Flush(text) => Ok(flush(text.as_slice(), message)),
        Rule::Raise(text) => Ok(raise(text.as_slice(), message)),
        Rule::Crash(text) => Ok(crash(text.as_slice(), message)),
        Rule::FailEvery(every) => Ok(fail_every(count, *every, message)),
    }
}

fn prefix(alloc: Global, text: &[u8], message: Message) -> Result<Reply, AllocError>
    ensures { IfOk result (λ reply. reply ≡ rule_reply_in 0 (Rule.Prefix text.now) message) }
{
    if text.len() + message.payload.len() > MAX_PAYLOAD_BYTES {
        return Ok(Reply::Failed(reason(b"long")));
    }
    let payload = joined(alloc, text, message.payload.as_slice())?;
    let mut message = message;
    message.payload = payload;
    Ok(Reply::Pass(message))
}

fn joined(alloc: Global, front: &[u8], back: &[u8]) -> Result<Bytes, AllocError>
    requires { length front.now + length back.now < 2 ^ 64 }
    ensures { IfOk result (λ bytes. bytes ≡ front.now ++ back.now) }
{
    let mut bytes = Vec::with_capacity(alloc, front.len() + back.len())?;
    bytes.extend_from_slice(front)?;
    bytes.extend_from_slice(back)?;
    Ok(Bytes::from_vec(bytes))
}

fn require(text: &[u8], message: Message) -> Reply
    ensures { result ≡ rule_reply_in 0 (Rule.Require text.now) message }
{
    if begins(&message, text) {
        Reply::Pass(message)
    } else {
        Reply::Failed(reason(b"require"))
    }
}

fn route(n: u8, batcher: u16, value: &[u8], message: Message) -> Reply
    ensures { result ≡ rule_reply_in 0 (Rule.Route n batcher value.now) message }
{
    if field(message.payload.as_slice(), n) == value {
        let mut message = message;
        message.batcher = batcher;
        return Reply::Pass(message);
    }
    Reply::Pass(message)
}

fn key(alloc: Global, n: u8, message: Message) -> Result<Reply, AllocError>
    ensures { IfOk result (λ reply. reply ≡ rule_reply_in 0 (Rule.Key n) message) }
{
    let key = copy_bytes(alloc, field(message.payload.as_slice(), n))?;
    let mut message = message;
    message.key = key;
    Ok(Reply::Pass(message))
}

fn flush(text: &[u8], message: Message) -> Reply
    ensures { result ≡ rule_reply_in 0 (Rule.Flush text.now) message }
{
    if begins(&message, text) {
        let mut message = message;
        message.flush = true;
        return Reply::Pass(message);
    }
    Reply::Pass(message)
}

fn raise(text: &[u8], message: Message) -> Reply
    ensures { result ≡ rule_reply_in 0 (Rule.Raise text.now) message }
{
    if begins(&message, text) {
        return Reply::Raised(reason(b"raise"));
    }
    Reply::Pass(message)
}

fn crash(text: &[u8], message: Message) -> Reply
    ensures { result ≡ rule_reply_in 0 (Rule.Crash text.now) message }
{
    if begins(&message, text) {
        return Reply::Crashed;
    }
    Reply::Pass(message)
}

fn fail_every(count: u64, every: u32, message: Message) -> Reply
    ensures { result ≡ rule_reply_in count (Rule.FailEvery every) message }
{
    if remainder(count, u64::from(every)) == 0 {
        return Reply::Failed(reason(b"every"));
    }
    Reply::Pass(message)
}

fn begins(message: &Message, text: &[u8]) -> bool
    ensures { result ≡ begins_with text.now message.now.payload }
{
    message.payload.as_slice().starts_with(text)
}

fn reason(word: &[u8]) -> Reason
    requires { IsReasonText word.now }
    ensures { result ≡ word.now }
{
    match Reason::new(word) {
        Some(reason) => reason,
        None => unreachable!(),
    }
}
