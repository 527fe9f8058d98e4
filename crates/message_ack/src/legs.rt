//! The legs of batches that were sent.

ghost use Rattle.std.specs.Prelude.{◌≡◌, ◌==◌, ◌<◌, ℕ, List, [], ◌∷◌, ◌++◌, All, length, slice_set, replicate, is_some, nat_lt, if◌then◌else◌, true, Some, None, slice_get, option_map, IsSome, IfSome, IfOk, OnOk, OnErr};
ghost use Rattle.std.specs.List.{list_all};
ghost use Rattle.pipe_types.specs.Handlers.{is_successful as is_successful_outcome};
ghost use Rattle.pipe_model.specs.Batches.{Leg, is_settled};
ghost use Rattle.message_ack.specs.Ends.{Ends, HasOutcomes, IsSettledBy, ends_of, sent_in, with_end, with_leg, loss_of_ends, outcome_of_end, outcome_of_ends};

use crate::verdicts::is_successful;
use pipe_types::message::{Loss, Outcome, OutcomeList};
use pipe_types::numbers::BatchNo;
use std::alloc::{AllocError, Global};
use std::collections::HashMap;
use std::marker::Model;

/// How a leg of a batch ended: with an outcome for each message, in their order, or lost.
#[derive(Drop)]
pub enum LegEnd {
    Answered(OutcomeList),
    Lost(Loss),
}

/// How a batch ended: with an outcome for each message, in their order, or lost whole.
#[derive(Drop)]
pub enum Settled {
    Outcomes(OutcomeList),
    Lost(Loss),
}

/// The batches that were sent and are not settled, each with the ends of its legs.
#[derive(Drop)]
pub struct Legs {
    alloc: Global,
    batches: HashMap<u32, BatchLegs>,
}

impl Model for Legs {
    ghost use Rattle.std.specs.Prelude.{ℕ, List};
    ghost use Rattle.message_ack.specs.Ends.{Ends};

    ghost Value = { List (ℕ × Ends) };

    ghost view = { λ l. l.batches.entries };
}

impl Legs {
    /// No batch. It takes its memory here.
    pub fn new(alloc: Global) -> Self
        ensures { (b : ℕ) → sent_in result b ≡ None }
    {
        Legs {
            alloc,
            batches: HashMap::new(alloc),
        }
    }

    /// Notes a batch of so many messages that was sent with so many legs. With no leg it is settled at once, each message
    /// successful, and is not kept.
    pub fn begin(
        &mut self,
        batch: BatchNo,
        legs: u16,
        messages: u32,
    ) -> Result<Option<Settled>, AllocError>
        requires { sent_in self.old batch.0 ≡ None }
        ensures begun { OnOk result ((b : ℕ) → sent_in self.new b ≡ (if b == batch.0 then (if legs == 0 then None else Some (record { messages = messages; ends = replicate legs None })) else sent_in self.old b)) }
        ensures at_once { IfOk result (λ settled. is_some settled ≡ (legs == 0)) }
        ensures successful { IfOk result (λ settled. IfSome settled (IsSettledBy messages [])) }
        ensures unchanged { OnErr result (self.new ≡ self.old) }
    {
        let sent = BatchLegs::new(self.alloc, legs, messages)?;
        if legs == 0 {
            return Ok(Some(sent.into_settled()));
        }
        self.batches.insert(batch.0, sent)?;
        Ok(None)
    }

    /// Notes one leg more of a batch of so many messages, and at its first leg the batch.
    pub fn add_leg(&mut self, batch: BatchNo, messages: usize) -> Result<(), AllocError>
        ensures added { OnOk result ((b : ℕ) → sent_in self.new b ≡ (if b == batch.0 then Some (with_leg messages (sent_in self.old b)) else sent_in self.old b)) }
        ensures unchanged { OnErr result ((b : ℕ) → sent_in self.new b ≡ sent_in self.old b) }
    {
        if let Some(sent) = self.batches.get_mut(&batch.0) {
            return sent.add(self.alloc);
        }
        let first = BatchLegs::of_one(self.alloc, messages)?;
        self.batches.insert(batch.0, first)?;
        Ok(())
    }

    /// Forgets a batch that was sent. The others stay, and it takes no memory.
    pub fn forget(&mut self, batch: BatchNo)
        ensures { (b : ℕ) → sent_in self.new b ≡ (if b == batch.0 then None else sent_in self.old b) }
    {
        self.batches.remove(&batch.0);
    }

    /// Whether the batch was sent and is not settled.
    pub fn is_sent(&self, batch: BatchNo) -> bool
        ensures { result ≡ is_some (sent_in self.now batch.0) }
    {
        self.batches.contains_key(&batch.0)
    }

    /// Ends a leg of a batch, which is there with this leg open. None where another leg is still open; at the last leg the
    /// batch ends, and is not kept.
    pub fn settle_leg(&mut self, batch: BatchNo, leg: u16, end: LegEnd) -> Option<Settled>
        requires open_leg { IfSome (sent_in self.old batch.0) (λ b. slice_get b.ends leg ≡ Some None) }
        requires there { IsSome (sent_in self.old batch.0) }
        requires outcomes { IfSome (sent_in self.old batch.0) (λ b. HasOutcomes b.messages (Some end)) }
        ensures last_leg { IfSome (with_end (sent_in self.old batch.0) leg end) (λ b. (legs : List Leg) → ends_of legs ≡ b.ends → is_some result ≡ is_settled legs) }
        ensures settled { IfSome (with_end (sent_in self.old batch.0) leg end) (λ b. (legs : List Leg) → ends_of legs ≡ b.ends → IfSome result (IsSettledBy b.messages legs)) }
        ensures kept { (b : ℕ) → sent_in self.new b ≡ (if b == batch.0 then (if is_some result then None else with_end (sent_in self.old b) leg end) else sent_in self.old b) }
    {
        let sent = self.batches.get_mut(&batch.0)?;
        sent.put(leg as usize, end);
        if !sent.is_settled() {
            return None;
        }
        let sent = self.batches.remove(&batch.0)?;
        Some(sent.into_settled())
    }
}

/// The ends of a batch's legs, and room for its outcomes.
#[derive(Drop)]
pub struct BatchLegs {
    messages: usize,
    ends: Vec<Option<LegEnd>>,
    // One for each message, but where there is one leg alone: the batch ends as that does.
    outcomes: Vec<Outcome>,
}

impl Model for BatchLegs {
    ghost use Rattle.std.specs.Prelude.{All, length};
    ghost use Rattle.message_ack.specs.Ends.{Ends, HasOutcomes, IsRoomFor};

    ghost Value = { Ends };

    ghost view = { λ b. record { messages = b.messages; ends = b.ends.items } };

    ghost invariant = { λ b. All (HasOutcomes b.messages) b.ends.items × IsRoomFor b.messages (length b.outcomes.items) (length b.ends.items) };
}

impl BatchLegs {
    fn new(alloc: Global, legs: u16, messages: u32) -> Result<Self, AllocError>
        ensures { IfOk result (λ b. b ≡ record { messages = messages; ends = replicate legs None }) }
    {
        let mut ends = Vec::with_capacity(alloc, legs as usize)?;
        for _leg in 0..legs {
            ends.push(None)?;
        }
        Ok(BatchLegs {
            messages: messages as usize,
            ends,
            outcomes: vec![in alloc; Outcome::Successful; messages as usize]?,
        })
    }

    fn of_one(alloc: Global, messages: usize) -> Result<Self, AllocError>
        ensures { IfOk result (λ b. b ≡ record { messages = messages; ends = None ∷ [] }) }
    {
        let mut ends = Vec::with_capacity(alloc, 1)?;
        ends.push(None)?;
        Ok(BatchLegs {
            messages,
            ends,
            outcomes: Vec::new(alloc),
        })
    }

    fn add(&mut self, alloc: Global) -> Result<(), AllocError>
        ensures added { OnOk result (self.new ≡ record self.old { ends = self.old.ends ++ None ∷ [] }) }
        ensures unchanged { OnErr result (self.new ≡ self.old) }
    {
        make_room(&mut self.outcomes, alloc, self.messages)?;
        self.ends.push(None)?;
        Ok(())
    }

    fn put(&mut self, leg: usize, end: LegEnd)
        requires within { leg < length self.old.ends }
        requires outcomes { HasOutcomes self.old.messages (Some end) }
        ensures { self.new ≡ record self.old { ends = slice_set self.old.ends leg (Some end) } }
    {
        self.ends[leg] = Some(end);
    }

    fn is_settled(&self) -> bool
        ensures { result ≡ list_all is_some self.now.ends }
    {
        self.ends.iter().all(|end| end.is_some())
    }

    fn into_settled(self) -> Settled
        requires { list_all is_some self.ends ≡ true }
        ensures { (legs : List Leg) → ends_of legs ≡ self.ends → IsSettledBy self.messages legs result }
    {
        let BatchLegs {
            messages,
            mut ends,
            mut outcomes,
        } = self;
        if ends.len() == 1 {
            return settled_alone(&mut ends, messages);
        }
        if let Some(loss) = least_loss(&ends) {
            return Settled::Lost(loss);
        }
        put_outcomes(&mut outcomes, &ends);
        Settled::Outcomes(OutcomeList::from_vec(outcomes))
    }
}

/// Makes an outcome for each message, where there is not one for each already.
fn make_room(outcomes: &mut Vec<Outcome>, alloc: Global, messages: usize) -> Result<(), AllocError>
    ensures room { OnOk result (length outcomes.new.items ≡ messages) }
    ensures unchanged { OnErr result (outcomes.new.items ≡ outcomes.old.items) }
{
    if outcomes.len() == messages {
        return Ok(());
    }
    *outcomes = vec![in alloc; Outcome::Successful; messages]?;
    Ok(())
}

/// How a batch of so many messages ends by its one leg, which has ended.
fn settled_alone(ends: &mut Vec<Option<LegEnd>>, messages: usize) -> Settled
    requires alone { length ends.old.items ≡ 1 }
    requires ended { list_all is_some ends.old.items ≡ true }
    requires outcomes { All (HasOutcomes messages) ends.old.items }
    ensures { (legs : List Leg) → ends_of legs ≡ ends.old.items → IsSettledBy messages legs result }
{
    match ends.pop() {
        Some(Some(LegEnd::Answered(outcomes))) => Settled::Outcomes(outcomes),
        Some(Some(LegEnd::Lost(loss))) => Settled::Lost(loss),
        _ => unreachable!(),
    }
}

/// How the least leg that was lost was lost.
fn least_loss(ends: &[Option<LegEnd>]) -> Option<Loss>
    ensures { result ≡ loss_of_ends ends.now }
{
    for end in ends {
        if let Some(LegEnd::Lost(loss)) = end {
            return Some(*loss);
        }
    }
    None
}

/// Gives each message its outcome: failed as the least leg that failed it says, else successful.
fn put_outcomes(outcomes: &mut Vec<Outcome>, ends: &[Option<LegEnd>])
    ensures { (i : ℕ) → slice_get outcomes.new.items i ≡ (if nat_lt i (length outcomes.old.items) then Some (outcome_of_ends ends.now i) else None) }
{
    for i in 0..outcomes.len() {
        outcomes[i] = outcome_at(ends, i);
    }
}

/// The outcome of one message.
fn outcome_at(ends: &[Option<LegEnd>], at: usize) -> Outcome
    ensures { result ≡ outcome_of_ends ends.now at }
{
    let mut outcome = Outcome::Successful;
    for end in ends {
        outcome = first_failed(outcome, outcome_by(end, at));
    }
    outcome
}

/// The first of the two where it is a failure, else the second.
fn first_failed(outcome: Outcome, other: Outcome) -> Outcome
    ensures { result ≡ (if is_successful_outcome outcome then other else outcome) }
{
    if is_successful(&outcome) {
        other
    } else {
        outcome
    }
}

/// The outcome of one message by one leg.
fn outcome_by(end: &Option<LegEnd>, at: usize) -> Outcome
    ensures { result ≡ outcome_of_end end.now at }
{
    match end {
        Some(LegEnd::Answered(outcomes)) => outcomes
            .as_slice()
            .get(at)
            .copied()
            .unwrap_or(Outcome::Successful),
        _ => Outcome::Successful,
    }
}
