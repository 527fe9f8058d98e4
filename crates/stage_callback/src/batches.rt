//! What the built-in kinds answer to a batch.

ghost use Rattle.std.specs.{Prelude.{◌≡◌, ◌∷◌, ◌++◌, [], IsTrue, IfOk, OnOk}, List.{list_all}};
ghost use Rattle.pipe_types.specs.Handlers.{eval, batch_answer_by, count_after_batch, text_of};
ghost use Rattle.stage_callback.specs.Callbacks.{is_countable};

use crate::copies::copy_message;
use crate::rules::evaluate;
use pipe_types::bytes::Bytes;
use pipe_types::message::{BatchReply, Message, Outcome, OutcomeList, Reply};
use pipe_types::topology::{Kind, StageSpec};
use std::alloc::{AllocError, Global};

/// The answer of a callback of this kind to a batch, and the count that it leaves. The first message that raises or
/// crashes ends it.
pub(crate) fn apply_to_batch(
    alloc: Global,
    kind: Kind,
    spec: &StageSpec,
    count: u64,
    messages: &[Message],
) -> Result<(BatchReply, u64), AllocError>
    requires { IsTrue (list_all is_countable spec.now.rules) }
    ensures reply { IfOk result (λ r. r.0 ≡ batch_answer_by kind spec.now count messages.now) }
    ensures count { IfOk result (λ r. r.1 ≡ count_after_batch spec.now count messages.now) }
{
    if spec.rules.as_slice().is_empty() {
        return pass_all(alloc, kind, spec, count, messages);
    }
    let mut seen = count;
    let mut outcomes = Vec::new(alloc);
    let mut text = Vec::new(alloc);
    for message in messages {
        let reply = evaluate_copy(alloc, spec, seen, message)?;
        seen = seen.saturating_add(1);
        match reply {
            Reply::Pass(passed) => {
                outcomes.push(Outcome::Successful)?;
                add_line(&mut text, kind, &passed)?;
            }
            Reply::Failed(why) => outcomes.push(Outcome::Failed(why))?,
            Reply::Raised(why) => return Ok((BatchReply::Raised(why), seen)),
            Reply::Crashed => return Ok((BatchReply::Crashed, seen)),
        }
    }
    let answer = BatchReply::Answered(OutcomeList::from_vec(outcomes), Bytes::from_vec(text));
    Ok((answer, seen))
}

/// The same without rules: each message passes as it is, and is not copied.
fn pass_all(
    alloc: Global,
    kind: Kind,
    spec: &StageSpec,
    count: u64,
    messages: &[Message],
) -> Result<(BatchReply, u64), AllocError>
    requires { spec.now.rules ≡ [] }
    ensures reply { IfOk result (λ r. r.0 ≡ batch_answer_by kind spec.now count messages.now) }
    ensures count { IfOk result (λ r. r.1 ≡ count_after_batch spec.now count messages.now) }
{
    let mut seen = count;
    let mut outcomes = Vec::with_capacity(alloc, messages.len())?;
    let mut text = Vec::new(alloc);
    for message in messages {
        seen = seen.saturating_add(1);
        outcomes.push(Outcome::Successful)?;
        add_line(&mut text, kind, message)?;
    }
    let answer = BatchReply::Answered(OutcomeList::from_vec(outcomes), Bytes::from_vec(text));
    Ok((answer, seen))
}

/// The reply to a message that stays in its batch.
fn evaluate_copy(
    alloc: Global,
    spec: &StageSpec,
    count: u64,
    message: &Message,
) -> Result<Reply, AllocError>
    requires { IsTrue (list_all is_countable spec.now.rules) }
    ensures { IfOk result (λ reply. reply ≡ eval spec.now count message.now) }
{
    let copied = copy_message(alloc, message)?;
    evaluate(alloc, spec, count, copied)
}

/// Adds to a batch's text what a message that passed adds.
fn add_line(text: &mut Vec<u8>, kind: Kind, passed: &Message) -> Result<(), AllocError>
    ensures { OnOk result (text.new.items ≡ text.old.items ++ text_of kind (Reply.Pass passed.now ∷ [])) }
{
    if kind == Kind::Lines {
        text.extend_from_slice(passed.payload.as_slice())?;
        text.push(b'\n')?;
    }
    Ok(())
}
