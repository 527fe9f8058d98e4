//! The built-in kind `Kind::Lines`.

ghost use Rattle.std.specs.Prelude.{◌≡◌, false, []};
ghost use Rattle.pipe_types.specs.declared.topology.Kind.TheVariants.{Lines};

use crate::handler::Handler;
use crate::{BatchReply, Callback, FailedReply, Prepared};
use pipe_types::message::{Batch, Message, Reply};
use pipe_types::numbers::MsgNo;
use pipe_types::reason::Reason;
use pipe_types::topology::{Kind, StageSpec};
use std::alloc::{AllocError, Global};

/// Answers each message by the rules of its spec. The text of a batch is the payload, as the rules leave it, and LF
/// of each message that passed.
#[derive(Drop)]
pub struct LinesBox {
    handler: Handler,
}

impl LinesBox {
    /// A callback that was never armed: it has no rules. It takes no memory.
    pub fn new(alloc: Global) -> LinesBox
        ensures kind { ⟦<LinesBox as Callback>⟧.kind result ≡ Kind.Lines }
        ensures count { ⟦<LinesBox as Callback>⟧.count result ≡ 0 }
        ensures calls { ⟦<LinesBox as Callback>⟧.calls result ≡ 0 }
        ensures bad { ⟦<LinesBox as Callback>⟧.bad result ≡ 0 }
    {
        LinesBox {
            handler: Handler::new(alloc, Kind::Lines),
        }
    }
}

impl Callback for LinesBox {
    ghost kind = { λ _. Lines };

    ghost spec = { λ b. b.handler.spec };

    ghost count = { λ b. b.handler.count };

    ghost calls = { λ _. 0 };

    ghost bad = { λ _. 0 };

    ghost resets = { λ _. 0 };

    ghost told = { λ _. false };

    ghost said = { λ _. [] };

    fn kind(&self) -> Kind {
        Kind::Lines
    }

    fn arm(&mut self, stage: &StageSpec) -> Result<(), AllocError> {
        self.handler.arm(stage)
    }

    fn reset(&mut self) {
        self.handler.count = 0;
    }

    fn prepare(&mut self, _messages: &[Message]) -> Result<Prepared, AllocError> {
        Ok(Prepared::Ready)
    }

    fn message(&mut self, message: Message) -> Result<Reply, AllocError> {
        self.handler.message(message)
    }

    fn batch(&mut self, batch: &Batch) -> Result<BatchReply, AllocError> {
        self.handler.batch(Kind::Lines, batch.messages.as_slice())
    }

    fn failed(&mut self, _no: MsgNo, _reason: &Reason) -> Result<FailedReply, AllocError> {
        Ok(self.handler.failed())
    }
}
