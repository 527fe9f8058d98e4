//! The tables.

ghost use Rattle.std.specs.Prelude.{◌≡◌, IfOk, option_copied, option_map, if◌then◌else◌};
ghost use Rattle.pipe_types.specs.Numbers.{same_sub as same_sub_in};
ghost use Rattle.pipe_model.specs.Flow.{count_on};
ghost use Rattle.plain_queues.specs.Views.{batch_of, place_at, batch_at};

use pipe_types::message::{Loss, Outcome, Place};
use pipe_types::numbers::{StageNo, SubNo};
use pipe_types::room::Sent;
use plain_counts::{plus, same_sub};
use std::alloc::AllocError;

/// Where a leg stands: in an inbox, at work, answered or lost.
#[derive(Drop)]
pub enum LegPlace {
    InInbox,
    AtWork,
    Answered(Vec<Outcome>),
    LegLost(Loss),
}

/// A batch on one of the subscriptions that it was sent on.
#[derive(Drop)]
pub struct Leg {
    pub sub: SubNo,
    pub place: LegPlace,
}

/// A batch waits in its batcher, was sent with its legs in order, or was lost in the batcher.
#[derive(Drop)]
pub enum BatchPlace {
    AtBatcher(StageNo),
    Sent(Vec<Leg>),
    Dropped(Loss),
}

/// A batch: its messages, in order, and where it stands.
#[derive(Drop)]
pub struct BatchRow {
    pub numbers: Vec<u32>,
    pub place: BatchPlace,
}

/// Where each message stands, where each batch stands, both from number 1 on, and all that was sent, in order.
#[derive(Drop)]
pub struct Tables {
    pub places: Vec<Place>,
    pub batches: Vec<BatchRow>,
    pub sends: Vec<Sent>,
}

/// Where message `n` stands, and none where it was not accepted.
pub fn place_of(tables: &Tables, n: u32) -> Option<Place>
    ensures { result ≡ place_at tables.now.places.items n }
{
    if n == 0 {
        return None;
    }
    tables.places.get(n as usize - 1).copied()
}

/// Batch `n`, and none where it was not closed.
pub fn batch_row(tables: &Tables, n: u32) -> Option<&BatchRow>
    ensures { option_map batch_of (option_copied result) ≡ batch_at tables.now.batches.items n }
{
    if n == 0 {
        return None;
    }
    tables.batches.get(n as usize - 1)
}

fn one_on(sent: &Sent, sub: SubNo) -> u64
    ensures { result ≡ (if same_sub_in sent.now.sub sub then 1 else 0) }
{
    if same_sub(sent.sub, sub) { 1 } else { 0 }
}

/// How many units were sent on the subscription.
pub fn sent_on(tables: &Tables, sub: SubNo) -> Result<u64, AllocError>
    ensures { IfOk result (λ n. n ≡ count_on tables.now.sends.items sub) }
{
    let sends = tables.sends.as_slice();
    let mut count = 0;
    for sent in sends {
        count = plus(count, one_on(sent, sub))?;
    }
    Ok(count)
}
