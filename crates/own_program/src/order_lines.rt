//! Batches of orders, written as JSON lines.

ghost use Rattle.std.specs.Prelude.{◌≡◌};
ghost use Rattle.pipe_types.specs.declared.message.Reply.TheVariants.{Pass};

use own_handler::{BatchAnswer, Handler, reason};
use pipe_types::message::{Batch, Message, Outcome, Reply};
use std::alloc::{AllocError, Global};

/// Writes the orders of a batch, a JSON line each. An order that stands in its batch twice is written once, and fails with the
/// reason `twice` from then on.
#[derive(Drop)]
pub struct OrderLines {
    alloc: Global,
}

impl OrderLines {
    pub fn new(alloc: Global) -> OrderLines {
        OrderLines { alloc }
    }
}

impl Handler for OrderLines {
    // A message stays as it is.
    ghost message_gives = { λ _ message reply _. reply ≡ Pass message };

    fn message(&mut self, message: Message) -> Result<Reply, AllocError> {
        Ok(Reply::Pass(message))
    }

    fn batch(&mut self, batch: &Batch) -> Result<BatchAnswer, AllocError> {
        let orders = batch.messages.as_slice();
        let mut outcomes = Vec::new(self.alloc);
        for (at, order) in orders.iter().enumerate() {
            outcomes.push(outcome_of(&orders[..at], order))?;
        }
        Ok(BatchAnswer::Each(outcomes))
    }
}

/// The outcome of an order behind these.
fn outcome_of(before: &[Message], order: &Message) -> Outcome {
    for earlier in before {
        if earlier.payload.as_slice() == order.payload.as_slice() {
            return Outcome::Failed(reason(b"twice"));
        }
    }
    Outcome::Successful
}
