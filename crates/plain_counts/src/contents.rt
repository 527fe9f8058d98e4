//! Messages as they were accepted and passed on, and the units that began to wait.

ghost use Rattle.std.specs.Prelude.{◌≡◌, ◌+◌, ◌++◌, ◌∷◌, [], IfOk, option_map};
ghost use Rattle.pipe_model.specs.History.{history};
ghost use Rattle.pipe_model.specs.Content.{has_crash as has_crash_in, content as content_in, numbers_from, passed, arrivals_after as arrivals_then, arrivals as arrivals_in, producer_of as producer_of_in, gathers_after as gathers_then, gathers as gathers_in, is_among_next as is_among_next_in, taken_in_by as taken_in_then, fresh as fresh_in, passed_as as passed_as_in, changed_by as changed_by_in};
ghost use Rattle.plain_counts.specs.Seen.{message_seen};

use crate::counts::{accepted, closed, plus};
use pipe_types::bytes::Bytes;
use pipe_types::message::{Message, Reply};
use pipe_types::numbers::StageNo;
use pipe_types::step::{LateAnswer, Step};
use std::alloc::{AllocError, Global};

/// The number of a unit. Where it needs more than 32 bits, that counts as want of memory.
pub fn unit_no(n: u64) -> Result<u32, AllocError>
    ensures { IfOk result (λ unit. unit ≡ n) }
{
    if n <= u64::from(u32::MAX) {
        Ok(n as u32)
    } else {
        Err(AllocError)
    }
}

fn is_crash(reply: &Reply) -> bool
    ensures { result ≡ has_crash_in (reply.now ∷ []) }
{
    match reply {
        Reply::Crashed => true,
        _ => false,
    }
}

/// Whether a reply of the list is a crash.
pub fn has_crash(replies: &[Reply]) -> bool
    ensures { result ≡ has_crash_in replies.now }
{
    let mut found = false;
    for reply in replies {
        found = found || is_crash(reply);
    }
    found
}

/// Puts the numbers of these records, from `first` on, behind the others.
fn push_records(old: Vec<u32>, first: u64, records: &[Bytes]) -> Result<Vec<u32>, AllocError>
    ensures { IfOk result (λ units. units.items ≡ old.items ++ numbers_from first records.now) }
{
    let mut units = old;
    let mut next = first;
    for record in records {
        units.push(unit_no(next)?)?;
        next = plus(next, 1)?;
    }
    Ok(units)
}

/// Puts the number of a passed message behind the others.
fn push_reply(old: Vec<u32>, reply: &Reply) -> Result<Vec<u32>, AllocError>
    ensures { IfOk result (λ units. units.items ≡ old.items ++ passed (reply.now ∷ [])) }
{
    let mut units = old;
    match reply {
        Reply::Pass(message) => units.push(message.no.0)?,
        _ => {}
    }
    Ok(units)
}

/// Puts the numbers of the passed messages behind the others.
fn push_passed(old: Vec<u32>, replies: &[Reply]) -> Result<Vec<u32>, AllocError>
    ensures { IfOk result (λ units. units.items ≡ old.items ++ passed replies.now) }
{
    let mut units = old;
    for reply in replies {
        units = push_reply(units, reply)?;
    }
    Ok(units)
}

fn push_unit(old: Vec<u32>, unit: u32) -> Result<Vec<u32>, AllocError>
    ensures { IfOk result (λ units. units.items ≡ old.items ++ unit ∷ []) }
{
    let mut units = old;
    units.push(unit)?;
    Ok(units)
}

fn arrivals_after(
    before: &[Step],
    step: &Step,
    stage: StageNo,
    old: Vec<u32>,
) -> Result<Vec<u32>, AllocError>
    ensures { IfOk result (λ units. units.items ≡ arrivals_then (history before.now) step.now stage old.items) }
{
    match step {
        Step::Accept { stage: at, records } if at.0 == stage.0 => {
            push_records(old, plus(accepted(before)?, 1)?, records.as_slice())
        }
        Step::Done { stage: at, replies } if at.0 == stage.0 && !has_crash(replies.as_slice()) => {
            push_passed(old, replies.as_slice())
        }
        Step::Close { stage: at, .. } if at.0 == stage.0 => {
            push_unit(old, unit_no(plus(closed(before)?, 1)?)?)
        }
        _ => Ok(old),
    }
}

/// The units that began to wait in the stage, in order: accepted or passed messages, or closed batches.
pub fn arrivals(alloc: Global, steps: &[Step], stage: StageNo) -> Result<Vec<u32>, AllocError>
    ensures { IfOk result (λ units. units.items ≡ arrivals_in (history steps.now) stage) }
{
    let mut units = Vec::new(alloc);
    for i in 0..steps.len() {
        units = arrivals_after(&steps[..i], &steps[i], stage, units)?;
    }
    Ok(units)
}

fn is_among_next(accepted: u64, count: usize, n: u32) -> Result<bool, AllocError>
    ensures { IfOk result (λ among. among ≡ is_among_next_in accepted count n) }
{
    Ok(accepted < u64::from(n) && u64::from(n) <= plus(accepted, count as u64)?)
}

fn taken_in_by(
    accepted: u64,
    step: &Step,
    n: u32,
    old: Option<StageNo>,
) -> Result<Option<StageNo>, AllocError>
    ensures { IfOk result (λ producer. producer ≡ taken_in_then accepted step.now n old) }
{
    match step {
        Step::Accept { stage, records } => {
            let among = is_among_next(accepted, records.as_slice().len(), n)?;
            Ok(if among { Some(*stage) } else { old })
        }
        Step::Late {
            stage,
            answer: LateAnswer::Records(records),
            ..
        } => {
            let among = is_among_next(accepted, records.as_slice().len(), n)?;
            Ok(if among { Some(*stage) } else { old })
        }
        _ => Ok(old),
    }
}

/// The producer that took message `n` in, and none where it was not accepted.
pub fn producer_of(steps: &[Step], n: u32) -> Result<Option<StageNo>, AllocError>
    ensures { IfOk result (λ producer. producer ≡ producer_of_in (history steps.now) n) }
{
    let mut producer = None;
    for i in 0..steps.len() {
        producer = taken_in_by(accepted(&steps[..i])?, &steps[i], n, producer)?;
    }
    Ok(producer)
}

fn gathers_after(step: &Step, stage: StageNo, old: Vec<u32>) -> Result<Vec<u32>, AllocError>
    ensures { IfOk result (λ units. units.items ≡ gathers_then step.now stage old.items) }
{
    match step {
        Step::Gather { stage: at, no } if at.0 == stage.0 => push_unit(old, no.0),
        _ => Ok(old),
    }
}

/// The messages that the batcher gathered, in order.
pub fn gathers(alloc: Global, steps: &[Step], stage: StageNo) -> Result<Vec<u32>, AllocError>
    ensures { IfOk result (λ units. units.items ≡ gathers_in (history steps.now) stage) }
{
    let mut units = Vec::new(alloc);
    for step in steps {
        units = gathers_after(step, stage, units)?;
    }
    Ok(units)
}

/// A message as it was last seen: as a producer's record, or as a reply passed it on.
#[derive(Clone, Copy)]
pub enum Seen<'a> {
    Accepted(StageNo, u32, &'a Bytes),
    Passed(&'a Message),
}

/// Message `n` among records of which the first is numbered one above `accepted`.
fn fresh<'a>(
    stage: StageNo,
    accepted: u64,
    records: &'a [Bytes],
    n: u32,
) -> Result<Option<Seen<'a>>, AllocError>
    ensures { IfOk result (λ seen. option_map message_seen seen ≡ fresh_in stage accepted records.now n) }
{
    if u64::from(n) <= accepted {
        return Ok(None);
    }
    let at = u64::from(n) - accepted - 1;
    match records.get(at as usize) {
        Some(record) => Ok(Some(Seen::Accepted(stage, n, record))),
        None => Ok(None),
    }
}

/// Message `n` as a reply passes it on.
fn passed_as<'a>(replies: &'a [Reply], n: u32) -> Option<Seen<'a>>
    ensures { option_map message_seen result ≡ passed_as_in replies.now n }
{
    for reply in replies {
        match reply {
            Reply::Pass(message) if message.no.0 == n => return Some(Seen::Passed(message)),
            _ => {}
        }
    }
    None
}

fn changed_by<'a>(accepted: u64, step: &'a Step, n: u32) -> Result<Option<Seen<'a>>, AllocError>
    ensures { IfOk result (λ seen. option_map message_seen seen ≡ changed_by_in accepted step.now n) }
{
    match step {
        Step::Accept { stage, records } => fresh(*stage, accepted, records.as_slice(), n),
        Step::Late {
            stage,
            answer: LateAnswer::Records(records),
            ..
        } => fresh(*stage, accepted, records.as_slice(), n),
        Step::Done { replies, .. } if !has_crash(replies.as_slice()) => {
            Ok(passed_as(replies.as_slice(), n))
        }
        _ => Ok(None),
    }
}

/// Message `n` as it was accepted, or as it was last passed on.
pub fn content<'a>(steps: &'a [Step], n: u32) -> Result<Option<Seen<'a>>, AllocError>
    ensures { IfOk result (λ seen. option_map message_seen seen ≡ content_in (history steps.now) n) }
{
    let mut seen = None;
    for i in 0..steps.len() {
        if let Some(newer) = changed_by(accepted(&steps[..i])?, &steps[i], n)? {
            seen = Some(newer);
        }
    }
    Ok(seen)
}
