//! The messages that a stage works on.

ghost use Rattle.std.specs.Prelude.{◌≡◌, ◌++◌, ◌∷◌, [], IfOk, false};
ghost use Rattle.pipe_model.specs.{History.{history}, Content.{content as content_in}, Flow.{view_of, batch as batch_in, first_in, numbers_in}};
ghost use Rattle.pipe_model.specs.Work.{taken_units, messages_of as messages_of_in, chunk_of as chunk_of_in, batch_of as batch_of_in, child_of as child_of_in};
ghost use Rattle.plain_counts.specs.Seen.{message_seen};
ghost use Rattle.plain_queues.specs.{Flows.{topology_of, history_of}, Views.{batch_at, view_in}};
ghost use Rattle.plain_works.specs.Works.{WorksStand};

use crate::takes::last_taken;
use crate::works::Works;
use pipe_types::bytes::Bytes;
use pipe_types::message::Message;
use pipe_types::numbers::{MsgNo, StageNo};
use pipe_types::step::Step;
use plain_counts::{Seen, content, in_slot};
use plain_handlers::copy_message;
use plain_lives::Past;
use plain_queues::{Flow, batch_row};
use std::alloc::{AllocError, Global};

fn new_message(
    alloc: Global,
    producer: StageNo,
    n: u32,
    bytes: &Bytes,
) -> Result<Message, AllocError>
    ensures { IfOk result (λ message. message ≡ record { no = record { 0 = n }; producer = producer; payload = bytes.now; batcher = 0; key = []; flush = false }) }
{
    Ok(Message {
        no: MsgNo(n),
        producer,
        payload: Bytes::from_vec(Vec::from_slice(alloc, bytes.as_slice())?),
        batcher: 0,
        key: Bytes::from_vec(Vec::new(alloc)),
        flush: false,
    })
}

fn message_of(alloc: Global, seen: Seen<'_>) -> Result<Message, AllocError>
    ensures { IfOk result (λ message. message ≡ message_seen seen.entry) }
{
    match seen {
        Seen::Accepted(producer, n, bytes) => new_message(alloc, producer, n, bytes),
        Seen::Passed(message) => copy_message(alloc, message),
    }
}

/// Message `n` as it stands now.
fn message(alloc: Global, steps: &[Step], n: u32) -> Result<Option<Message>, AllocError>
    ensures { IfOk result (λ message. message ≡ content_in (history steps.now) n) }
{
    match content(steps, n)? {
        Some(seen) => Ok(Some(message_of(alloc, seen)?)),
        None => Ok(None),
    }
}

/// Puts message `n` behind the others, where it was accepted.
fn push_message(
    messages: Vec<Message>,
    alloc: Global,
    steps: &[Step],
    n: u32,
) -> Result<Vec<Message>, AllocError>
    ensures { IfOk result (λ more. more.items ≡ messages.items ++ messages_of_in (history steps.now) (n ∷ [])) }
{
    let mut more = messages;
    if let Some(message) = message(alloc, steps, n)? {
        more.push(message)?;
    }
    Ok(more)
}

/// These messages as they stand now.
#[tactic(auto, using(crate::proofs::Contents::front_more))]
fn messages_of(alloc: Global, steps: &[Step], numbers: &[u32]) -> Result<Vec<Message>, AllocError>
    ensures { IfOk result (λ messages. messages.items ≡ messages_of_in (history steps.now) numbers.now) }
{
    let mut messages = Vec::new(alloc);
    for n in numbers {
        messages = push_message(messages, alloc, steps, *n)?;
    }
    Ok(messages)
}

/// The messages that a processor has taken, in order.
pub fn chunk_of(flow: &Flow<'_>, works: &Works, stage: StageNo) -> Result<Vec<Message>, AllocError>
    requires { WorksStand (topology_of flow.now) (history_of flow.now) works.now }
    ensures { IfOk result (λ messages. messages.items ≡ chunk_of_in (topology_of flow.now) (history_of flow.now) stage) }
{
    match last_taken(works.takes.as_slice(), stage) {
        Some(taken) => messages_of(flow.alloc, flow.past.steps, taken.units.as_slice()),
        None => Ok(Vec::new(flow.alloc)),
    }
}

fn first(numbers: &[u32]) -> u32
    ensures { result ≡ first_in numbers.now }
{
    match numbers.first() {
        Some(n) => *n,
        None => 0,
    }
}

/// The batch that the stage has taken, and 0 where it took none.
fn taken_batch(past: &Past<'_>, works: &Works, stage: StageNo) -> u32
    requires { WorksStand past.now.topology.now (history past.now.steps.now) works.now }
    ensures { result ≡ first_in (taken_units past.now.topology.now (history past.now.steps.now) stage) }
{
    match last_taken(works.takes.as_slice(), stage) {
        Some(taken) => first(taken.units.as_slice()),
        None => 0,
    }
}

/// The messages of the row of batch `n`, as they stand now, in order.
fn messages_in(flow: &Flow<'_>, n: u32) -> Result<Vec<Message>, AllocError>
    ensures { IfOk result (λ messages. messages.items ≡ messages_of_in (history_of flow.now) (numbers_in (batch_at flow.now.tables.now.batches.items n))) }
{
    match batch_row(flow.tables, n) {
        Some(row) => messages_of(flow.alloc, flow.past.steps, row.numbers.as_slice()),
        None => Ok(Vec::new(flow.alloc)),
    }
}

/// The messages of batch `n`, as they stand now, in order.
fn batch_messages(flow: &Flow<'_>, n: u32) -> Result<Vec<Message>, AllocError>
    requires { view_in flow.now.tables.now ≡ view_of (topology_of flow.now) (history_of flow.now) }
    ensures { IfOk result (λ messages. messages.items ≡ messages_of_in (history_of flow.now) (numbers_in (batch_in (topology_of flow.now) (history_of flow.now) n))) }
{
    messages_in(flow, n)
}

/// The messages of the batch that a batch processor has taken, in order.
pub fn batch_of(flow: &Flow<'_>, works: &Works, stage: StageNo) -> Result<Vec<Message>, AllocError>
    requires tables { view_in flow.now.tables.now ≡ view_of (topology_of flow.now) (history_of flow.now) }
    requires works { WorksStand (topology_of flow.now) (history_of flow.now) works.now }
    ensures { IfOk result (λ messages. messages.items ≡ batch_of_in (topology_of flow.now) (history_of flow.now) stage) }
{
    batch_messages(flow, taken_batch(&flow.past, works, stage))
}

/// The message of the child in the slot, as a list of at most one.
pub fn child_of(
    alloc: Global,
    steps: &[Step],
    stage: StageNo,
    slot: u16,
) -> Result<Vec<Message>, AllocError>
    ensures { IfOk result (λ messages. messages.items ≡ child_of_in (history steps.now) stage slot) }
{
    let none = Vec::new(alloc);
    match in_slot(steps, stage, slot) {
        Some(n) => push_message(none, alloc, steps, n),
        None => Ok(none),
    }
}
