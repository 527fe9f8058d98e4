//! Copies of a message and of a stage's spec, and the spec of a callback that was never armed.

ghost use Rattle.std.specs.Prelude.{◌≡◌, IfOk, [], None};

use pipe_types::bytes::{Bytes, Text};
use pipe_types::message::Message;
use pipe_types::numbers::StageNo;
use pipe_types::topology::{
    CancelMode, ChildMode, Dispatch, Keep, Kind, Role, Rule, RuleList, StageSpec,
};
use std::alloc::{AllocError, Global};

/// A copy of these bytes.
pub(crate) fn copy_bytes(alloc: Global, bytes: &[u8]) -> Result<Bytes, AllocError>
    ensures { IfOk result (λ copied. copied ≡ bytes.now) }
{
    Ok(Bytes::from_vec(Vec::from_slice(alloc, bytes)?))
}

fn copy_text(alloc: Global, text: &Text) -> Result<Text, AllocError>
    ensures { IfOk result (λ copied. copied ≡ text.now) }
{
    Ok(Text::from_string(String::from_str(alloc, text.as_str())?))
}

/// A copy of the message, on this allocator.
pub fn copy_message(alloc: Global, message: &Message) -> Result<Message, AllocError>
    ensures { IfOk result (λ copied. copied ≡ message.now) }
{
    Ok(Message {
        no: message.no,
        producer: message.producer,
        payload: copy_bytes(alloc, message.payload.as_slice())?,
        batcher: message.batcher,
        key: copy_bytes(alloc, message.key.as_slice())?,
        flush: message.flush,
    })
}

fn copy_rule(alloc: Global, rule: &Rule) -> Result<Rule, AllocError>
    ensures { IfOk result (λ copied. copied ≡ rule.now) }
{
    Ok(match rule {
        Rule::Pass => Rule::Pass,
        Rule::Prefix(text) => Rule::Prefix(copy_bytes(alloc, text.as_slice())?),
        Rule::Require(text) => Rule::Require(copy_bytes(alloc, text.as_slice())?),
        Rule::Route(n, batcher, value) => Rule::Route(
            *n,
            *batcher,
            copy_bytes(alloc, value.as_slice())?,
        ),
        Rule::Key(n) => Rule::Key(*n),
        Rule::Flush(text) => Rule::Flush(copy_bytes(alloc, text.as_slice())?),
        Rule::Raise(text) => Rule::Raise(copy_bytes(alloc, text.as_slice())?),
        Rule::Crash(text) => Rule::Crash(copy_bytes(alloc, text.as_slice())?),
        Rule::FailEvery(every) => Rule::FailEvery(*every),
    })
}

fn copy_rules(alloc: Global, rules: &[Rule]) -> Result<RuleList, AllocError>
    ensures { IfOk result (λ copied. copied ≡ rules.now) }
{
    let mut copied = Vec::new(alloc);
    for rule in rules {
        copied.push(copy_rule(alloc, rule)?)?;
    }
    Ok(RuleList::from_vec(copied))
}

fn copy_edge(alloc: Global, edge: &Option<Text>) -> Result<Option<Text>, AllocError>
    ensures { IfOk result (λ copied. copied ≡ edge.now) }
{
    match edge {
        Some(name) => Ok(Some(copy_text(alloc, name)?)),
        None => Ok(None),
    }
}

/// A copy of the spec, on this allocator, for a callback that keeps what it is armed with.
pub fn copy_spec(alloc: Global, spec: &StageSpec) -> Result<StageSpec, AllocError>
    ensures { IfOk result (λ copied. copied ≡ spec.now) }
{
    Ok(StageSpec {
        no: spec.no,
        name: copy_text(alloc, &spec.name)?,
        role: spec.role,
        index: spec.index,
        batcher: spec.batcher,
        dispatch: spec.dispatch,
        parts: spec.parts,
        field: spec.field,
        size: spec.size,
        keep: spec.keep,
        push: spec.push,
        mode: spec.mode,
        min: spec.min,
        max: spec.max,
        kind: spec.kind,
        rules: copy_rules(alloc, spec.rules.as_slice())?,
        failed: spec.failed,
        edge: copy_edge(alloc, &spec.edge)?,
        batch_size: spec.batch_size,
        batch_timeout: spec.batch_timeout,
        child: spec.child,
        batchers: spec.batchers,
        select: copy_bytes(alloc, spec.select.as_slice())?,
        limit: spec.limit,
    })
}

/// The spec of a callback that was never armed: no rules, no reason and no batchers. It takes no memory.
pub fn unarmed(alloc: Global, kind: Kind) -> StageSpec
    ensures kind { result.kind ≡ kind }
    ensures rules { result.rules ≡ [] }
    ensures failed { result.failed ≡ None }
    ensures batchers { result.batchers ≡ 0 }
{
    StageSpec {
        no: StageNo(0),
        name: Text::from_string(String::new(alloc)),
        role: Role::Producer,
        index: 0,
        batcher: 0,
        dispatch: Dispatch::Demand,
        parts: 0,
        field: 0,
        size: None,
        keep: Keep::Last,
        push: false,
        mode: CancelMode::Temporary,
        min: 0,
        max: 0,
        kind,
        rules: RuleList::from_vec(Vec::new(alloc)),
        failed: None,
        edge: None,
        batch_size: 0,
        batch_timeout: 0,
        child: ChildMode::Temporary,
        batchers: 0,
        select: Bytes::from_vec(Vec::new(alloc)),
        limit: 0,
    }
}
