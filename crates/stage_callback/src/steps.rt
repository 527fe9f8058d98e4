//! The built-in kind `Kind::Steps`.

ghost use Rattle.std.specs.Prelude.{◌≡◌, false, []};
ghost use Rattle.pipe_types.specs.declared.topology.Kind.TheVariants.{Steps};

use crate::handler::Handler;
use crate::{BatchReply, Callback, FailedReply, Prepared};
use pipe_types::message::{Batch, Message, Reply};
use pipe_types::numbers::MsgNo;
use pipe_types::reason::Reason;
use pipe_types::topology::{Kind, StageSpec};
use std::alloc::{AllocError, Global};

/// Answers each message by the rules of its spec. A batch has no text.
#[derive(Drop)]
pub struct StepsBox {
    handler: Handler,
}

impl StepsBox {
    /// A callback that was never armed: it has no rules. It takes no memory.
    pub fn new(alloc: Global) -> StepsBox
        ensures kind { ⟦<StepsBox as Callback>⟧.kind result ≡ Kind.Steps }
        ensures count { ⟦<StepsBox as Callback>⟧.count result ≡ 0 }
        ensures calls { ⟦<StepsBox as Callback>⟧.calls result ≡ 0 }
        ensures bad { ⟦<StepsBox as Callback>⟧.bad result ≡ 0 }
    {
        StepsBox {
            handler: Handler::new(alloc, Kind::Steps),
        }
    }
}

impl Callback for StepsBox {
    ghost kind = { λ _. Steps };

    ghost spec = { λ b. b.handler.spec };

    ghost count = { λ b. b.handler.count };

    ghost calls = { λ _. 0 };

    ghost bad = { λ _. 0 };

    ghost resets = { λ _. 0 };

    ghost told = { λ _. false };

    ghost said = { λ _. [] };

    fn kind(&self) -> Kind {
        Kind::Steps
    }

    fn arm(&mut self, stage: &StageSpec) -> Result<(), AllocError> {
        self.handler.arm(stage)
    }

    fn reset(&mut self) {
        self.handler.count = 0;
    }

    fn prepare(&mut self, _messages: &[Message]) -> Result<Prepared, AllocError> {
        Ok(Prepared::Ready)
    }

    fn message(&mut self, message: Message) -> Result<Reply, AllocError> {
        self.handler.message(message)
    }

    fn batch(&mut self, batch: &Batch) -> Result<BatchReply, AllocError> {
        self.handler.batch(Kind::Steps, batch.messages.as_slice())
    }

    fn failed(&mut self, _no: MsgNo, _reason: &Reason) -> Result<FailedReply, AllocError> {
        Ok(self.handler.failed())
    }
}
