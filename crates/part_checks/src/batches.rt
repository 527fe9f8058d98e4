//! The open batches of a batcher.
//!
//! Begins with `SIZE:TIMEOUT`, the timeout in milliseconds. The acts are `gather=KEY:MESSAGE:NOW` and `flush=KEY:MESSAGE:NOW`,
//! the second in flush mode: whether the message fits; `closable=NOW` and, where the batcher is drained, `dry=NOW`: the place,
//! the first message and the trigger of the first open batch with a trigger; `closable_at=FIRST:NOW` and `dry_at=FIRST:NOW`,
//! of the first that begins with that message; `close=BATCH:NOW` and `drain=BATCH:NOW`, the batch that closes; `fits=KEY`; and
//! `dump`. An empty key is an empty text.

use crate::words::{Case, cut, item, long, number, refuse};
use batcher::{Batcher, Closable, ClosedBatch};
use pipe_types::message::Trigger;
use pipe_types::numbers::{BatchNo, MsgNo};
use std::alloc::AllocError;
use told_text::Told;

pub fn run(told: &mut Told, case: &Case<'_>) -> Result<(), AllocError> {
    let size = number(item(case.begun, 0));
    let mut batcher = Batcher::new(told.alloc, size, long(item(case.begun, 1)));
    for act in case.acts.split_whitespace() {
        let (verb, rest) = cut(act, '=');
        act_on(told, &mut batcher, verb, rest)?;
    }
    Ok(())
}

fn act_on(
    told: &mut Told,
    batcher: &mut Batcher,
    verb: &str,
    rest: &str,
) -> Result<(), AllocError> {
    match verb {
        "gather" => told.flag(gather(batcher, rest, false)?),
        "flush" => told.flag(gather(batcher, rest, true)?),
        "close" => close(told, batcher, rest, false),
        "drain" => close(told, batcher, rest, true),
        "dump" => told.found(batcher.dump().map(|no| no.0)),
        _ => ask(told, batcher, verb, rest),
    }
    Ok(())
}

fn ask(told: &mut Told, batcher: &Batcher, verb: &str, rest: &str) {
    match verb {
        "fits" => told.flag(batcher.fits(rest.as_bytes())),
        "closable" => tell_closable(told, batcher.closable(long(rest), false)),
        "dry" => tell_closable(told, batcher.closable(long(rest), true)),
        "closable_at" => tell_closable(told, closable_at(batcher, rest, false)),
        "dry_at" => tell_closable(told, closable_at(batcher, rest, true)),
        _ => refuse(told),
    }
}

/// Gathers a message where it fits, and answers whether it did.
fn gather(batcher: &mut Batcher, rest: &str, flush: bool) -> Result<bool, AllocError> {
    let key = item(rest, 0).as_bytes();
    if !batcher.fits(key) {
        return Ok(false);
    }
    batcher.gather(
        key,
        MsgNo(number(item(rest, 1))),
        flush,
        long(item(rest, 2)),
    )?;
    Ok(true)
}

fn closable_at(batcher: &Batcher, rest: &str, dry: bool) -> Option<Closable> {
    let first = MsgNo(number(item(rest, 0)));
    batcher.closable_at(first, long(item(rest, 1)), dry)
}

fn tell_closable(told: &mut Told, found: Option<Closable>) {
    match found {
        Some(batch) => {
            told.count(batch.at as u64);
            told.behind(":", u64::from(batch.first.0));
            told.add(":");
            told.add(word_of(batch.trigger));
        }
        None => told.add(" none"),
    }
}

fn word_of(trigger: Trigger) -> &'static str {
    match trigger {
        Trigger::Size => "size",
        Trigger::Flush => "flush",
        Trigger::Timeout => "timeout",
    }
}

fn close(told: &mut Told, batcher: &mut Batcher, rest: &str, dry: bool) {
    let no = BatchNo(number(item(rest, 0)));
    match close_next(batcher, no, long(item(rest, 1)), dry) {
        Some(batch) => tell_batch(told, &batch),
        None => told.add(" none"),
    }
}

/// Closes the first open batch with a trigger.
#[tactic(auto, using(batcher::proofs::Closing::closable_within))]
fn close_next(batcher: &mut Batcher, no: BatchNo, now: u64, dry: bool) -> Option<ClosedBatch> {
    let closable = batcher.closable(now, dry)?;
    Some(batcher.close(closable.at, no, closable.trigger))
}

/// The number of the batch, its key, its trigger and its messages.
fn tell_batch(told: &mut Told, batch: &ClosedBatch) {
    told.count(u64::from(batch.no.0));
    told.add(":");
    told.add(str::from_utf8(batch.key.as_slice()).unwrap_or("no text"));
    told.add(":");
    told.add(word_of(batch.trigger));
    for no in &batch.numbers {
        told.behind(",", u64::from(*no));
    }
}
