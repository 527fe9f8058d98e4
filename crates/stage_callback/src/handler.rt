//! What both built-in kinds hold: the spec that they were armed with, and how many messages they have seen.

ghost use Rattle.std.specs.{Prelude.{◌≡◌, true, IfOk, OnOk, OnErr, IsTrue, []}, List.{list_all}};
ghost use Rattle.pipe_types.specs.Handlers.{eval, batch_answer_by, count_after_batch, counted, is_own_reply};
ghost use Rattle.stage_callback.specs.Callbacks.{can_arm, is_message_for, is_batch_answer, failed_reply};

use crate::FailedReply;
use crate::batches::apply_to_batch;
use crate::copies::{copy_spec, unarmed};
use crate::rules::evaluate;
use pipe_types::message::{BatchReply, Message, Reply};
use pipe_types::topology::{Kind, StageSpec};
use std::alloc::{AllocError, Global};

/// A spec that can be armed with, and a count, which stands still at its greatest value.
#[derive(Drop)]
pub(crate) struct Handler {
    alloc: Global,
    pub(crate) spec: StageSpec,
    pub(crate) count: u64,
    ghost armed: { can_arm spec ≡ true },
}

impl Handler {
    pub(crate) fn new(alloc: Global, kind: Kind) -> Handler
        ensures { result.count ≡ 0 }
    {
        Handler {
            alloc,
            spec: unarmed(alloc, kind),
            count: 0,
        }
    }

    pub(crate) fn arm(&mut self, stage: &StageSpec) -> Result<(), AllocError>
        requires { IsTrue (can_arm stage.now) }
        ensures armed { OnOk result ((self.new.spec ≡ stage.now) × (self.new.count ≡ 0)) }
        ensures unchanged { OnErr result ((self.new.spec ≡ self.old.spec) × (self.new.count ≡ self.old.count)) }
    {
        self.spec = copy_spec(self.alloc, stage)?;
        self.count = 0;
        Ok(())
    }

    pub(crate) fn message(&mut self, message: Message) -> Result<Reply, AllocError>
        ensures same_spec { self.new.spec ≡ self.old.spec }
        ensures reply { IfOk result (λ reply. reply ≡ eval self.old.spec self.old.count message) }
        ensures shape { IsTrue (is_message_for self.old.spec.batchers message)
            → IfOk result (λ reply. IsTrue (is_own_reply self.old.spec.batchers message reply)) }
        ensures count { OnOk result (self.new.count ≡ counted self.old.count 1) }
        ensures unchanged { OnErr result (self.new.count ≡ self.old.count) }
    {
        let reply = evaluate(self.alloc, &self.spec, self.count, message)?;
        self.count = self.count.saturating_add(1);
        Ok(reply)
    }

    pub(crate) fn batch(
        &mut self,
        kind: Kind,
        messages: &[Message],
    ) -> Result<BatchReply, AllocError>
        ensures same_spec { self.new.spec ≡ self.old.spec }
        ensures reply { IfOk result (λ reply. reply ≡ batch_answer_by kind self.old.spec self.old.count messages.now) }
        ensures shape { IfOk result (λ reply. IsTrue (is_batch_answer messages.now reply)) }
        ensures count { OnOk result (self.new.count ≡ count_after_batch self.old.spec self.old.count messages.now) }
        ensures unchanged { OnErr result (self.new.count ≡ self.old.count) }
    {
        let (reply, count) = apply_to_batch(self.alloc, kind, &self.spec, self.count, messages)?;
        self.count = count;
        Ok(reply)
    }

    pub(crate) fn failed(&self) -> FailedReply
        ensures { result ≡ failed_reply self.now.spec.failed }
    {
        match self.spec.failed {
            Some(reason) => FailedReply::Replace(reason),
            None => FailedReply::Keep,
        }
    }
}
