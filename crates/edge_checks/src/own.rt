//! A user's own callback, called through its box.

ghost use Rattle.std.specs.Prelude.{◌≡◌, ◌≢◌, ◌++◌, ◌∷◌, [], true, false, IfOk, OnOk, IsTrue};
ghost use Rattle.pipe_types.specs.{Handlers.{eval, counted}, declared.topology.Kind.TheVariants.{Own}, Reason.{IsReasonText}, Counts.{Rose}};
ghost use Rattle.stage_callback.specs.Callbacks.{is_passed};

use super::boxes::{Handler, message_of, tell_failed, tell_kind, tell_number, tell_prepared};
use pipe_types::message::{Batch, Message, Reply};
use pipe_types::numbers::MsgNo;
use pipe_types::reason::Reason;
use pipe_types::topology::{Kind, StageSpec};
use stage_callback::{
    BatchReply, Callback, FailedReply, Prepared, Said, copy_message, copy_spec, count_reset,
    unarmed,
};
use std::alloc::{AllocError, Global};
use told_text::Told;

/// Fails each message that begins with `!`, and tells its answers.
#[derive(Drop)]
struct Watcher {
    alloc: Global,
    spec: StageSpec,
    calls: u64,
    bad: u64,
    resets: u64,
    said: Vec<Said>,
}

fn reason(word: &[u8]) -> Reason
    requires { IsReasonText word.now }
    ensures { result ≡ word.now }
{
    match Reason::new(word) {
        Some(reason) => reason,
        None => unreachable!(),
    }
}

impl Callback for Watcher {
    ghost kind = { λ _. Own };

    ghost spec = { λ w. w.spec };

    ghost count = { λ _. 0 };

    ghost calls = { λ w. w.calls };

    ghost bad = { λ w. w.bad };

    ghost resets = { λ w. w.resets };

    ghost told = { λ _. true };

    ghost said = { λ w. w.said.items };

    fn kind(&self) -> Kind {
        Kind::Own
    }

    fn arm(&mut self, stage: &StageSpec) -> Result<(), AllocError> {
        self.spec = copy_spec(self.alloc, stage)?;
        Ok(())
    }

    fn reset(&mut self) {
        count_reset(&mut self.resets);
    }

    fn prepare(&mut self, _messages: &[Message]) -> Result<Prepared, AllocError> {
        self.said.push(Said::Prepared(Prepared::Ready))?;
        Ok(Prepared::Ready)
    }

    fn message(&mut self, message: Message) -> Result<Reply, AllocError> {
        if message.payload.as_slice().starts_with(b"!") {
            self.said
                .push(Said::Message(Reply::Failed(reason(b"watched"))))?;
            self.calls = self.calls.saturating_add(1);
            self.bad = self.bad.saturating_add(1);
            return Ok(Reply::Failed(reason(b"watched")));
        }
        let copied = copy_message(self.alloc, &message)?;
        self.said.push(Said::Message(Reply::Pass(copied)))?;
        self.calls = self.calls.saturating_add(1);
        Ok(Reply::Pass(message))
    }

    fn batch(&mut self, _batch: &Batch) -> Result<BatchReply, AllocError> {
        self.said.push(Said::Batch(BatchReply::Crashed))?;
        self.calls = self.calls.saturating_add(1);
        self.bad = self.bad.saturating_add(1);
        Ok(BatchReply::Crashed)
    }

    fn failed(&mut self, _no: MsgNo, _reason: &Reason) -> Result<FailedReply, AllocError> {
        self.said.push(Said::Failed(FailedReply::Keep))?;
        Ok(FailedReply::Keep)
    }
}

/// Calls `message` through the box, and says what it answered and what that did to the box.
pub fn ask(callback: &mut Handler, message: Message) -> Result<Reply, AllocError>
    ensures same { (kind callback.new ≡ kind callback.old) × (spec callback.new ≡ spec callback.old) }
    ensures built_in { kind callback.old ≢ Kind.Own → IfOk result (λ reply.
        (reply ≡ eval (spec callback.old) (count callback.old) message)
        × (count callback.new ≡ counted (count callback.old) 1)) }
    ensures calls { kind callback.old ≡ Kind.Own → OnOk result (Rose (calls callback.old) (calls callback.new)) }
    ensures bad { kind callback.old ≡ Kind.Own → IfOk result (λ reply.
        is_passed reply ≡ false → Rose (bad callback.old) (bad callback.new)) }
    ensures told { IsTrue (told callback.old) → IfOk result (λ reply.
        said callback.new ≡ said callback.old ++ Said.Message reply ∷ []) }
{
    callback.message(message)
}

fn watching(alloc: Global) -> Watcher {
    Watcher {
        alloc,
        spec: unarmed(alloc, Kind::Own),
        calls: 0,
        bad: 0,
        resets: 0,
        said: Vec::new(alloc),
    }
}

/// `own`: the kind of the box, and its answers to a chunk, to messages that pass and that fail, and to one that failed.
pub fn through_its_box(told: &mut Told) -> Result<(), AllocError> {
    let mut callback: Handler = Box::new(told.alloc, watching(told.alloc))?;
    callback.arm(&unarmed(told.alloc, Kind::Own))?;
    tell_kind(told, callback.kind());
    tell_prepared(told, &mut callback);
    tell_asked(told, &mut callback)?;
    tell_failed(told, &mut callback)?;
    callback.reset();
    Ok(())
}

fn tell_asked(told: &mut Told, callback: &mut Handler) -> Result<(), AllocError> {
    for payload in "a !b".split(' ') {
        let message = message_of(told.alloc, 7, payload)?;
        tell_number(told, &ask(callback, message)?);
    }
    Ok(())
}

/// `answers`: the calls that it counts over three messages, those that were no success, and how many answers it tells.
pub fn answers(told: &mut Told) -> Result<(), AllocError> {
    let mut watcher = watching(told.alloc);
    for payload in "a !b c".split(' ') {
        let message = message_of(told.alloc, 7, payload)?;
        watcher.message(message)?;
    }
    told.count(watcher.calls);
    told.count(watcher.bad);
    told.count(watcher.said.len() as u64);
    Ok(())
}
