//! What a user writes of a callback.

ghost use Rattle.std.specs.Prelude.{◌≡◌, List, [], IfOk};
ghost use Rattle.stage_callback.specs.Laws.{AllAllow, MessageForm};
ghost use Rattle.pipe_types.specs.{declared.message.Message.{Message}, declared.message.Reply.{Reply}};

use pipe_types::message::{Batch, Message, Outcome, Reply};
use pipe_types::numbers::MsgNo;
use pipe_types::reason::Reason;
use stage_callback::{FailedReply, Prepared};
use std::alloc::AllocError;

/// What a handler answers to a batch.
#[derive(Drop)]
pub enum BatchAnswer {
    /// Every message is successful.
    Successful,
    /// An outcome for each message, in their order.
    Each(Vec<Outcome>),
    /// Every message fails with this reason.
    Raised(Reason),
    /// The stage is killed.
    Crashed,
}

/// What a user writes of a callback, used in an `OwnBox`. Every error is want of memory.
///
/// A reply passes the message on as the same message, for one of the stage's batchers, with a payload and a key of at most
/// 65,536 bytes each. No reason is `sink`. An answer in another shape kills the stage, as a crash does.
pub trait Handler: Drop {
    /// What is said of a reply: by the handler before the call, the message, the reply, and the handler after the call. An
    /// `impl` that leaves it out says nothing, and owes nothing.
    ghost message_gives: { Self → Message → Reply → Self → Type 0 } = { λ _ _ _ _. Unit {0} };

    /// What is said of each reply, whatever was handled before: no call changes it. An `impl` that leaves it out says nothing.
    /// It stands in the law of the box.
    ghost law: { Self → List MessageForm } = { λ _. [] };

    /// Handles one message.
    fn message(&mut self, message: Message) -> Result<Reply, AllocError>
        ensures gives { IfOk result (λ reply. message_gives self.old message reply self.new) }
        ensures lawful { IfOk result (λ reply. AllAllow (law self.old) message reply) }
        ensures same_law { law self.new ≡ law self.old };

    /// Looks at a chunk, before its messages one by one.
    fn prepare(&mut self, _messages: &[Message]) -> Result<Prepared, AllocError>
        ensures same_law { law self.new ≡ law self.old }
    {
        Ok(Prepared::Ready)
    }

    /// Handles a batch. Its text is the payload and LF of each successful message.
    fn batch(&mut self, _batch: &Batch) -> Result<BatchAnswer, AllocError>
        ensures same_law { law self.new ≡ law self.old }
    {
        Ok(BatchAnswer::Successful)
    }

    /// Looks at a message that failed.
    fn failed(&mut self, _no: MsgNo, _reason: &Reason) -> Result<FailedReply, AllocError>
        ensures same_law { law self.new ≡ law self.old }
    {
        Ok(FailedReply::Keep)
    }

    /// Begins anew, when its stage is started or restarted.
    fn reset(&mut self)
        ensures same_law { law self.new ≡ law self.old }
    {}
}
