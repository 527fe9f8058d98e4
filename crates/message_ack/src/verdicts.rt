//! Verdicts by producer.

ghost use Rattle.std.specs.{Prelude.{◌≡◌, ◌↔◌, ℕ, IfOk, map, Contains}, List.Sorted.{IsStrictlyIncreasing}};
ghost use Rattle.pipe_types.specs.Handlers.{is_successful as is_successful_outcome};
ghost use Rattle.message_ack.specs.Groups.{acknowledgement, successful_of, failed_of, IsAcknowledgement, AreAcknowledgements};

use pipe_types::message::{MsgList, Outcome};
use pipe_types::numbers::{MsgNo, StageNo};
use std::alloc::{AllocError, Global};
use std::marker::Model;

/// How a message ended, and the producer that accepted it.
#[derive(Clone, Copy)]
pub struct Verdict {
    pub no: MsgNo,
    pub producer: StageNo,
    pub outcome: Outcome,
}

/// A producer with the numbers of its successful and of its failed messages, both ascending.
#[derive(Drop)]
pub struct Ack {
    pub producer: StageNo,
    pub successful: MsgList,
    pub failed: MsgList,
}

/// Acknowledgements, in order of their producers.
#[derive(Drop)]
pub struct AckList {
    items: Vec<Ack>,
}

impl Model for AckList {
    ghost use Rattle.std.specs.Prelude.{List};
    ghost use Rattle.pipe_model.specs.Acknowledgements.{Acknowledgement};
    ghost use Rattle.message_ack.specs.Groups.{acknowledgements_in};

    ghost Value = { List Acknowledgement };

    ghost view = { λ l. acknowledgements_in l.items.items };
}

impl AckList {
    ghost use Rattle.message_ack.specs.Groups.{acknowledgements_in};

    pub fn as_slice(&self) -> &[Ack]
        ensures { acknowledgements_in result.now ≡ self.now }
    {
        self.items.as_slice()
    }

    /// The items, in their order, with no memory of its own.
    pub fn into_vec(self) -> Vec<Ack>
        ensures { acknowledgements_in result.items ≡ self }
    {
        self.items
    }
}

/// One acknowledgement for each producer of a verdict, producers ascending, each with its successful and its failed
/// messages, both ascending. The verdicts may stand in any order.
pub fn group(alloc: Global, verdicts: &[Verdict]) -> Result<AckList, AllocError>
    ensures { IfOk result (AreAcknowledgements verdicts.now) }
{
    let producers = producers_of(alloc, verdicts)?;
    let mut items = Vec::with_capacity(alloc, producers.len())?;
    for producer in &producers {
        items.push(ack_of(alloc, verdicts, StageNo(*producer))?)?;
    }
    Ok(AckList { items })
}

/// The numbers of the producers of these verdicts, each once, ascending.
fn producers_of(alloc: Global, verdicts: &[Verdict]) -> Result<Vec<u16>, AllocError>
    ensures ascending { IfOk result (λ producers. IsStrictlyIncreasing producers.items) }
    ensures producers { IfOk result (λ producers. (p : ℕ) → Contains (map (λ v. v.producer.0) verdicts.now) p ↔ Contains producers.items p) }
{
    let mut producers = producer_numbers(alloc, verdicts)?;
    producers.sort_unstable();
    producers.dedup();
    Ok(producers)
}

fn producer_numbers(alloc: Global, verdicts: &[Verdict]) -> Result<Vec<u16>, AllocError>
    ensures { IfOk result (λ producers. producers.items ≡ map (λ v. v.producer.0) verdicts.now) }
{
    verdicts.iter().map(|v| v.producer.0).collect(alloc)
}

/// The acknowledgement of one producer.
fn ack_of(alloc: Global, verdicts: &[Verdict], producer: StageNo) -> Result<Ack, AllocError>
    ensures producer { IfOk result (λ ack. ack.producer ≡ producer) }
    ensures numbers { IfOk result (λ ack. IsAcknowledgement verdicts.now (acknowledgement ack)) }
{
    let mut successful = successful(alloc, verdicts, producer)?;
    let mut failed = failed(alloc, verdicts, producer)?;
    successful.sort_unstable_by_key(|no| no.0);
    failed.sort_unstable_by_key(|no| no.0);
    Ok(Ack {
        producer,
        successful: MsgList::from_vec(successful),
        failed: MsgList::from_vec(failed),
    })
}

/// The producer's messages that succeeded, in the order of the verdicts.
fn successful(
    alloc: Global,
    verdicts: &[Verdict],
    producer: StageNo,
) -> Result<Vec<MsgNo>, AllocError>
    ensures { IfOk result (λ numbers. map (λ no. no.0) numbers.items ≡ successful_of verdicts.now producer) }
{
    let mut numbers = Vec::new(alloc);
    for v in verdicts {
        if v.producer.0 == producer.0 && is_successful(&v.outcome) {
            numbers.push(v.no)?;
        }
    }
    Ok(numbers)
}

/// The producer's messages that failed, in the order of the verdicts.
fn failed(alloc: Global, verdicts: &[Verdict], producer: StageNo) -> Result<Vec<MsgNo>, AllocError>
    ensures { IfOk result (λ numbers. map (λ no. no.0) numbers.items ≡ failed_of verdicts.now producer) }
{
    let mut numbers = Vec::new(alloc);
    for v in verdicts {
        if v.producer.0 == producer.0 && !is_successful(&v.outcome) {
            numbers.push(v.no)?;
        }
    }
    Ok(numbers)
}

pub(crate) fn is_successful(outcome: &Outcome) -> bool
    ensures { result ≡ is_successful_outcome outcome.now }
{
    match outcome {
        Outcome::Successful => true,
        Outcome::Failed(_) => false,
    }
}
