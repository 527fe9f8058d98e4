//! A callback of one's own that says what it writes.

ghost use Rattle.std.specs.{Prelude.{◌≡◌, false, [], IfOk, IsTrue}, List.{list_all}};
ghost use Rattle.pipe_types.specs.{Handlers.{text_by}, declared.topology.Kind.TheVariants.{Own}};
ghost use Rattle.stage_callback.specs.Callbacks.{HasOwnText, is_batch_answer};
ghost use Rattle.own_callback.specs.Plain.{has_plain_payload, is_plain_byte, is_plain_text, plain_law};

use own_handler::{BatchAnswer, count_answer, count_call, is_all_successful, judge_batch, reason};
use pipe_types::message::{Batch, BatchReply, Message, Reply};
use pipe_types::numbers::MsgNo;
use pipe_types::reason::Reason;
use pipe_types::topology::{Kind, StageSpec};
use stage_callback::{Callback, FailedReply, Prepared, copy_spec, count_reset, unarmed};
use std::alloc::{AllocError, Global};

/// Passes each message. It writes a batch whose payloads are printable ASCII and line ends, and fails any other as a whole,
/// with the reason `bytes`. Its law says so.
#[derive(Drop)]
pub struct PlainLines {
    alloc: Global,
    spec: StageSpec,
    calls: u64,
    bad: u64,
    resets: u64,
}

impl PlainLines {
    /// A callback that was never armed. It takes no memory.
    pub fn new(alloc: Global) -> PlainLines
        ensures kind { ⟦<PlainLines as Callback>⟧.kind result ≡ Kind.Own }
        ensures law { ⟦<PlainLines as Callback>⟧.law result ≡ plain_law }
    {
        PlainLines {
            alloc,
            spec: unarmed(alloc, Kind::Own),
            calls: 0,
            bad: 0,
            resets: 0,
        }
    }
}

impl Callback for PlainLines {
    ghost kind = { λ _. Own };

    ghost spec = { λ c. c.spec };

    ghost count = { λ _. 0 };

    ghost calls = { λ c. c.calls };

    ghost bad = { λ c. c.bad };

    ghost resets = { λ c. c.resets };

    ghost law = { λ _. plain_law };

    ghost told = { λ _. false };

    ghost said = { λ _. [] };

    fn kind(&self) -> Kind {
        Kind::Own
    }

    fn arm(&mut self, stage: &StageSpec) -> Result<(), AllocError> {
        self.spec = copy_spec(self.alloc, stage)?;
        Ok(())
    }

    fn reset(&mut self) {
        count_reset(&mut self.resets);
    }

    fn prepare(&mut self, _messages: &[Message]) -> Result<Prepared, AllocError> {
        Ok(Prepared::Ready)
    }

    fn message(&mut self, message: Message) -> Result<Reply, AllocError> {
        count_call(&mut self.calls);
        Ok(Reply::Pass(message))
    }

    fn batch(&mut self, batch: &Batch) -> Result<BatchReply, AllocError> {
        let reply = write_plain(self.alloc, batch.messages.as_slice())?;
        count_call(&mut self.calls);
        count_answer(&mut self.bad, is_all_successful(&reply));
        Ok(reply)
    }

    fn failed(&mut self, _no: MsgNo, _reason: &Reason) -> Result<FailedReply, AllocError> {
        Ok(FailedReply::Keep)
    }
}

/// The answer to a batch of these messages.
#[tactic(auto, using(crate::proofs::PlainText::none_plain))]
fn write_plain(alloc: Global, messages: &[Message]) -> Result<BatchReply, AllocError>
    ensures shape { IfOk result (λ reply. IsTrue (is_batch_answer messages.now reply)) }
    ensures own_text { IfOk result (λ reply. HasOwnText messages.now reply) }
    ensures plain { IfOk result (λ reply. IsTrue (is_plain_text (text_by reply))) }
{
    if are_plain(messages) {
        judge_batch(alloc, messages, BatchAnswer::Successful)
    } else {
        judge_batch(alloc, messages, BatchAnswer::Raised(reason(b"bytes")))
    }
}

fn are_plain(messages: &[Message]) -> bool
    ensures { result ≡ list_all has_plain_payload messages.now }
{
    messages.iter().all(|message| is_plain(message))
}

fn is_plain(message: &Message) -> bool
    ensures { result ≡ has_plain_payload message.now }
{
    message
        .payload
        .as_slice()
        .iter()
        .all(|byte| is_plain_one(*byte))
}

fn is_plain_one(byte: u8) -> bool
    ensures { result ≡ is_plain_byte byte }
{
    (10 <= byte && byte <= 10) || (32 <= byte && byte <= 126)
}
