//! How the messages of a batch end by its legs, and verdicts by producer.
//!
//! An end is `ok`, `lost`, or the reason of a failure. Of `legs` each act is `FIRST:SECOND`, how the two legs of a batch of one
//! message end, or `none`, of a batch with no leg: how the message ends. Of `verdicts` each act is `MESSAGE:PRODUCER:END`; behind
//! the last come the acknowledgements.

ghost use Rattle.std.specs.Prelude.{IfOk, Some};
ghost use Rattle.message_ack.specs.Ends.{HasOutcomes};

use crate::words::{Case, item, number, stage};
use message_ack::{Ack, LegEnd, Legs, Settled, Verdict, group};
use pipe_types::message::{Loss, MsgList, Outcome, OutcomeList, Why};
use pipe_types::numbers::{BatchNo, MsgNo, StageNo};
use pipe_types::reason::Reason;
use std::alloc::{AllocError, Global};
use told_text::Told;

pub fn run_legs(told: &mut Told, case: &Case<'_>) -> Result<(), AllocError> {
    for act in case.acts.split_whitespace() {
        let settled = if act == "none" {
            end_of_none(told.alloc)?
        } else {
            end_of_two(told.alloc, item(act, 0), item(act, 1))?
        };
        tell_settled(told, settled);
    }
    Ok(())
}

fn outcome_of(text: &str) -> Outcome {
    match Reason::new(text.as_bytes()) {
        Some(why) if text != "ok" => Outcome::Failed(why),
        _ => Outcome::Successful,
    }
}

fn leg_end(alloc: Global, text: &str) -> Result<LegEnd, AllocError>
    ensures { IfOk result (λ end. HasOutcomes 1 (Some end)) }
{
    if text == "lost" {
        return Ok(LegEnd::Lost(Loss::Killed(StageNo(5), 1, Why::Kill)));
    }
    let outcomes = vec![in alloc; outcome_of(text)]?;
    Ok(LegEnd::Answered(OutcomeList::from_vec(outcomes)))
}

/// The end of a batch of one message with two legs; none where the first leg ended it.
fn end_of_two(alloc: Global, first: &str, second: &str) -> Result<Option<Settled>, AllocError> {
    let first = leg_end(alloc, first)?;
    let second = leg_end(alloc, second)?;
    let mut legs = Legs::new(alloc);
    legs.begin(BatchNo(1), 2, 1)?;
    if legs.settle_leg(BatchNo(1), 0, first).is_some() {
        return Ok(None);
    }
    Ok(legs.settle_leg(BatchNo(1), 1, second))
}

fn end_of_none(alloc: Global) -> Result<Option<Settled>, AllocError> {
    let mut legs = Legs::new(alloc);
    legs.begin(BatchNo(1), 0, 1)
}

fn tell_settled(told: &mut Told, settled: Option<Settled>) {
    match settled {
        Some(Settled::Outcomes(outcomes)) => tell_outcomes(told, outcomes.as_slice()),
        Some(Settled::Lost(loss)) => tell_loss(told, loss),
        None => told.add(" none"),
    }
}

fn tell_outcomes(told: &mut Told, outcomes: &[Outcome]) {
    told.count(outcomes.len() as u64);
    for outcome in outcomes {
        told.add(",");
        told.add(word_of(outcome));
    }
}

fn word_of(outcome: &Outcome) -> &str {
    match outcome {
        Outcome::Successful => "ok",
        Outcome::Failed(why) => str::from_utf8(why.as_bytes()).unwrap_or("no text"),
    }
}

/// The stage and the incarnation with which it was lost, where that was killed.
fn tell_loss(told: &mut Told, loss: Loss) {
    told.add(" lost");
    if let Loss::Killed(stage, incarnation, Why::Kill) = loss {
        told.behind(":", u64::from(stage.0));
        told.behind(":", u64::from(incarnation));
    }
}

pub fn run_verdicts(told: &mut Told, case: &Case<'_>) -> Result<(), AllocError> {
    let verdicts = verdicts_of(told.alloc, case.acts)?;
    let acks = group(told.alloc, &verdicts)?;
    for ack in acks.as_slice() {
        tell_ack(told, ack);
    }
    Ok(())
}

fn verdicts_of(alloc: Global, acts: &str) -> Result<Vec<Verdict>, AllocError> {
    // the toolchain loses the type of an outcome in a push of a verdict where the function does not name it
    let outcome = Outcome::Successful;
    let _ = outcome;
    let mut verdicts = Vec::new(alloc);
    for act in acts.split_whitespace() {
        verdicts.push(verdict_of(act))?;
    }
    Ok(verdicts)
}

fn verdict_of(act: &str) -> Verdict {
    Verdict {
        no: MsgNo(number(item(act, 0))),
        producer: stage(item(act, 1)),
        outcome: outcome_of(item(act, 2)),
    }
}

/// The producer, its successful and its failed messages.
fn tell_ack(told: &mut Told, ack: &Ack) {
    told.count(u64::from(ack.producer.0));
    told.add(":");
    tell_messages(told, &ack.successful);
    told.add(":");
    tell_messages(told, &ack.failed);
}

fn tell_messages(told: &mut Told, messages: &MsgList) {
    for no in messages.as_slice() {
        told.number(u64::from(no.0));
        told.add(",");
    }
}
