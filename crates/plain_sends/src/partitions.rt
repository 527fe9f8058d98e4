//! The partition of a waiting unit.

ghost use Rattle.std.specs.{Prelude.{◌≡◌, IfOk, position, option_copied, Some}, List.{before_first, after_first}};
ghost use Rattle.pipe_types.specs.{Handlers.{is_space, field as field_in}, Dispatchers.{partition_of as partition_of_in}};
ghost use Rattle.pipe_model.specs.{History.{history}, Content.{content as content_in, key_in, batcher_in, payload_in}, Flow.{first_in, numbers_in, partition_in}};
ghost use Rattle.plain_queues.specs.{Flows.{history_of}, Views.{batch_at, view_in}};

use pipe_types::step::Step;
use pipe_types::topology::{Role, StageSpec};
use plain_counts::{Seen, content, unit_no};
use plain_dispatch::partition_of;
use plain_queues::{Flow, Tables, batch_row, key_of};
use std::alloc::AllocError;

fn space_at(bytes: &[u8]) -> Option<usize>
    ensures { result ≡ position is_space bytes.now }
{
    bytes.iter().position(|b| *b == b' ')
}

fn before_space(bytes: &[u8]) -> &[u8]
    ensures { result.now ≡ before_first is_space bytes.now }
{
    match space_at(bytes) {
        Some(at) => &bytes[..at],
        None => bytes,
    }
}

fn after_space(bytes: &[u8]) -> &[u8]
    ensures { result.now ≡ after_first is_space bytes.now }
{
    match space_at(bytes) {
        Some(at) => &bytes[at + 1..],
        None => &bytes[bytes.len()..],
    }
}

/// Field `n` of a payload, numbered from 1. Field 0 is the payload, and a field that is not there is empty.
fn field(payload: &[u8], n: u16) -> &[u8]
    ensures { result.now ≡ field_in n payload.now }
{
    if n == 0 {
        return payload;
    }
    let mut rest = payload;
    for _before in 1..n {
        rest = after_space(rest);
    }
    before_space(rest)
}

/// The partition by a field of the message's payload.
fn part_by_field(steps: &[Step], n: u32, at: u16, parts: u32) -> Result<u64, AllocError>
    ensures { IfOk result (λ part. part ≡ partition_of_in (field_in at (payload_in (content_in (history steps.now) n))) parts) }
{
    let none: [u8; 0] = [];
    match content(steps, n)? {
        Some(Seen::Accepted(_, _, bytes)) => Ok(partition_of(field(bytes.as_slice(), at), parts)),
        Some(Seen::Passed(message)) => {
            Ok(partition_of(field(message.payload.as_slice(), at), parts))
        }
        None => Ok(partition_of(field(none.as_slice(), at), parts)),
    }
}

/// The partition by the message's key.
fn part_by_key(steps: &[Step], n: u32, parts: u32) -> Result<u64, AllocError>
    ensures { IfOk result (λ part. part ≡ partition_of_in (key_in (content_in (history steps.now) n)) parts) }
{
    let key = key_of(steps, n)?;
    Ok(partition_of(key, parts))
}

/// The batcher that the message names.
pub fn batcher_of(steps: &[Step], n: u32) -> Result<u64, AllocError>
    ensures { IfOk result (λ batcher. batcher ≡ batcher_in (content_in (history steps.now) n)) }
{
    match content(steps, n)? {
        Some(Seen::Passed(message)) => Ok(u64::from(message.batcher)),
        Some(Seen::Accepted(_, _, _)) => Ok(0),
        None => Ok(0),
    }
}

/// The first of these numbers, or 0.
pub fn first(numbers: &[u32]) -> u32
    ensures { result ≡ first_in numbers.now }
{
    match numbers.first() {
        Some(n) => *n,
        None => 0,
    }
}

/// The first message of the batch, or 0.
pub(crate) fn first_of_batch(tables: &Tables, n: u32) -> u32
    ensures { result ≡ first_in (numbers_in (batch_at tables.now.batches.items n)) }
{
    match batch_row(tables, n) {
        Some(row) => first(row.numbers.as_slice()),
        None => 0,
    }
}

fn part_by_role(flow: &Flow<'_>, spec: &StageSpec, n: u32) -> Result<u64, AllocError>
    ensures { IfOk result (λ part. part ≡ partition_in (history_of flow.now) (view_in flow.now.tables.now) (Some spec.now) n) }
{
    match spec.role {
        Role::Producer => part_by_field(flow.past.steps, n, spec.field, spec.parts),
        Role::Batcher => part_by_key(flow.past.steps, first_of_batch(flow.tables, n), spec.parts),
        _ => batcher_of(flow.past.steps, n),
    }
}

/// The partition of a waiting unit: by a field for a producer, the batcher for a processor, the key for a batcher.
pub fn partition(flow: &Flow<'_>, spec: Option<&StageSpec>, n: u32) -> Result<u32, AllocError>
    ensures { IfOk result (λ part. part ≡ partition_in (history_of flow.now) (view_in flow.now.tables.now) (option_copied spec.entry) n) }
{
    match spec {
        Some(spec) => unit_no(part_by_role(flow, spec, n)?),
        None => Ok(0),
    }
}
