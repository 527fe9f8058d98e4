//! The callback that a handler makes.

ghost use Rattle.std.specs.Prelude.{◌≡◌, ◌≤◌, false, [], IfOk, OnOk, OnErr, IsTrue};
ghost use Rattle.pipe_types.specs.{Handlers.{counted, is_own_reply}, Counts.{Rose}, declared.topology.Kind.TheVariants.{Own}};
ghost use Rattle.stage_callback.specs.{Callbacks.{is_passed as is_passed_in, is_all_successful as is_all_successful_in, is_batch_answer, HasOwnText}, Laws.{Keeps}};
ghost use Rattle.own_handler.specs.Judged.{IsJudged, counted_unless, law_of};

use crate::Handler;
use crate::judge::{
    is_all_successful, is_passed, is_ready, judge_batch, judge_failed, judge_prepared, judge_reply,
};
use pipe_types::message::{Batch, BatchReply, Message, Reply};
use pipe_types::numbers::MsgNo;
use pipe_types::reason::Reason;
use pipe_types::topology::{Kind, StageSpec};
use stage_callback::{Callback, FailedReply, Prepared, copy_spec, count_reset, unarmed};
use std::alloc::{AllocError, Global};

/// A handler as a callback of the kind `own`.
#[derive(Drop)]
pub struct OwnBox<H> {
    alloc: Global,
    spec: StageSpec,
    calls: u64,
    bad: u64,
    resets: u64,
    pub handler: H,
}

impl<H: Handler> OwnBox<H> {
    /// A callback that was never armed. It takes no memory.
    pub fn new(alloc: Global, handler: H) -> OwnBox<H>
        ensures kind { ⟦<OwnBox<H> as Callback>⟧.kind result ≡ Kind.Own }
        ensures calls { ⟦<OwnBox<H> as Callback>⟧.calls result ≡ 0 }
        ensures bad { ⟦<OwnBox<H> as Callback>⟧.bad result ≡ 0 }
        ensures resets { ⟦<OwnBox<H> as Callback>⟧.resets result ≡ 0 }
        ensures law { ⟦<OwnBox<H> as Callback>⟧.law result ≡ law_of (H.law handler) }
        ensures handler { result.handler ≡ handler }
    {
        OwnBox {
            alloc,
            spec: unarmed(alloc, Kind::Own),
            calls: 0,
            bad: 0,
            resets: 0,
            handler,
        }
    }

    /// Handles one message, as `message` of the callback does: the call is counted, and its answer where it is no pass.
    pub fn handle(&mut self, message: Message) -> Result<Reply, AllocError>
        ensures same_spec { ⟦<OwnBox<H> as Callback>⟧.spec self.new ≡ ⟦<OwnBox<H> as Callback>⟧.spec self.old }
        ensures same_law { ⟦<OwnBox<H> as Callback>⟧.law self.new ≡ ⟦<OwnBox<H> as Callback>⟧.law self.old }
        ensures same_resets { ⟦<OwnBox<H> as Callback>⟧.resets self.new ≡ ⟦<OwnBox<H> as Callback>⟧.resets self.old }
        // It is what the handler gave, as it is or as a crash.
        ensures judged { IfOk result (λ reply. IsJudged (λ given. H.message_gives self.old.handler message given self.new.handler)
            (⟦<OwnBox<H> as Callback>⟧.spec self.old).batchers message reply) }
        ensures lawful { IfOk result (λ reply. Keeps (⟦<OwnBox<H> as Callback>⟧.law self.old) message reply) }
        ensures shape { IfOk result (λ reply. IsTrue (is_own_reply (⟦<OwnBox<H> as Callback>⟧.spec self.old).batchers message reply)) }
        ensures calls { OnOk result (⟦<OwnBox<H> as Callback>⟧.calls self.new ≡ counted (⟦<OwnBox<H> as Callback>⟧.calls self.old) 1) }
        ensures bad { IfOk result (λ reply.
            ⟦<OwnBox<H> as Callback>⟧.bad self.new ≡ counted_unless (is_passed_in reply) (⟦<OwnBox<H> as Callback>⟧.bad self.old)) }
        ensures never_fall { (⟦<OwnBox<H> as Callback>⟧.calls self.old ≤ ⟦<OwnBox<H> as Callback>⟧.calls self.new)
            × (⟦<OwnBox<H> as Callback>⟧.bad self.old ≤ ⟦<OwnBox<H> as Callback>⟧.bad self.new) }
        ensures unchanged { OnErr result ((⟦<OwnBox<H> as Callback>⟧.calls self.new ≡ ⟦<OwnBox<H> as Callback>⟧.calls self.old)
            × (⟦<OwnBox<H> as Callback>⟧.bad self.new ≡ ⟦<OwnBox<H> as Callback>⟧.bad self.old)) }
    {
        let (no, producer) = (message.no, message.producer);
        let given = self.handler.message(message)?;
        let reply = judge_reply(self.spec.batchers, no, producer, given);
        count_call(&mut self.calls);
        count_answer(&mut self.bad, is_passed(&reply));
        Ok(reply)
    }

    /// Handles a batch, as `batch` of the callback does: the call is counted, and its answer where not every message is
    /// successful.
    pub fn handle_batch(&mut self, batch: &Batch) -> Result<BatchReply, AllocError>
        ensures same_spec { ⟦<OwnBox<H> as Callback>⟧.spec self.new ≡ ⟦<OwnBox<H> as Callback>⟧.spec self.old }
        ensures same_law { ⟦<OwnBox<H> as Callback>⟧.law self.new ≡ ⟦<OwnBox<H> as Callback>⟧.law self.old }
        ensures same_resets { ⟦<OwnBox<H> as Callback>⟧.resets self.new ≡ ⟦<OwnBox<H> as Callback>⟧.resets self.old }
        ensures shape { IfOk result (λ reply. IsTrue (is_batch_answer batch.now.messages reply)) }
        ensures own_text { IfOk result (λ reply. HasOwnText batch.now.messages reply) }
        ensures calls { OnOk result (⟦<OwnBox<H> as Callback>⟧.calls self.new ≡ counted (⟦<OwnBox<H> as Callback>⟧.calls self.old) 1) }
        ensures bad { IfOk result (λ reply.
            ⟦<OwnBox<H> as Callback>⟧.bad self.new ≡ counted_unless (is_all_successful_in reply) (⟦<OwnBox<H> as Callback>⟧.bad self.old)) }
        ensures never_fall { (⟦<OwnBox<H> as Callback>⟧.calls self.old ≤ ⟦<OwnBox<H> as Callback>⟧.calls self.new)
            × (⟦<OwnBox<H> as Callback>⟧.bad self.old ≤ ⟦<OwnBox<H> as Callback>⟧.bad self.new) }
        ensures unchanged { OnErr result ((⟦<OwnBox<H> as Callback>⟧.calls self.new ≡ ⟦<OwnBox<H> as Callback>⟧.calls self.old)
            × (⟦<OwnBox<H> as Callback>⟧.bad self.new ≡ ⟦<OwnBox<H> as Callback>⟧.bad self.old)) }
    {
        let answer = self.handler.batch(batch)?;
        let reply = judge_batch(self.alloc, batch.messages.as_slice(), answer)?;
        count_call(&mut self.calls);
        count_answer(&mut self.bad, is_all_successful(&reply));
        Ok(reply)
    }
}

/// Counts an answer other than success.
pub fn count_answer(bad: &mut u64, success: bool)
    ensures count { bad.new ≡ counted_unless success bad.old }
    ensures never_falls { bad.old ≤ bad.new }
    ensures rose { success ≡ false → Rose bad.old bad.new }
{
    let before = *bad;
    if !success {
        *bad = before.saturating_add(1);
    }
}

/// Counts a call.
pub fn count_call(calls: &mut u64)
    ensures count { calls.new ≡ counted calls.old 1 }
    ensures never_falls { calls.old ≤ calls.new }
    ensures rose { Rose calls.old calls.new }
{
    *calls = calls.saturating_add(1);
}

impl<H: Handler> Callback for OwnBox<H> {
    ghost kind = { λ _. Own };

    ghost spec = { λ b. b.spec };

    ghost count = { λ _. 0 };

    ghost calls = { λ b. b.calls };

    ghost bad = { λ b. b.bad };

    ghost resets = { λ b. b.resets };

    ghost law = { λ b. law_of (H.law b.handler) };

    ghost told = { λ _. false };

    ghost said = { λ _. [] };

    fn kind(&self) -> Kind {
        Kind::Own
    }

    fn arm(&mut self, stage: &StageSpec) -> Result<(), AllocError> {
        self.spec = copy_spec(self.alloc, stage)?;
        self.handler.reset();
        Ok(())
    }

    fn reset(&mut self) {
        count_reset(&mut self.resets);
        self.handler.reset();
    }

    fn prepare(&mut self, messages: &[Message]) -> Result<Prepared, AllocError> {
        let answer = judge_prepared(self.handler.prepare(messages)?);
        count_answer(&mut self.bad, is_ready(&answer));
        Ok(answer)
    }

    fn message(&mut self, message: Message) -> Result<Reply, AllocError> {
        self.handle(message)
    }

    fn batch(&mut self, batch: &Batch) -> Result<BatchReply, AllocError> {
        self.handle_batch(batch)
    }

    fn failed(&mut self, no: MsgNo, reason: &Reason) -> Result<FailedReply, AllocError> {
        Ok(judge_failed(self.handler.failed(no, reason)?))
    }
}
