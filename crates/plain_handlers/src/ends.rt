//! How a batch ends, and what a sink takes of it.

ghost use Rattle.std.specs.{Prelude.{◌≡◌, ◌++◌, ◌∷◌, [], ◌&&◌, IfOk, map, option_copied}, List.{list_any, list_all}};
ghost use Rattle.pipe_types.specs.Handlers.{outcome_of as outcome_of_in, passed_lines, text_of as text_of_in, answer_of, batch_answer as batch_answer_in, outcome_with as outcome_with_in, end_by as end_by_in, text_by, count_after_batch as count_after_batch_in, is_own_outcome as is_own_outcome_in, is_own_end as is_own_end_in, lines_where};
ghost use Rattle.pipe_model.specs.Work.{sink_reason as sink_reason_in, failed_by_sink as failed_by_sink_in, is_failed_by_sink as is_failed_by_sink_in, is_write_end as is_write_end_in, own_text as own_text_in, before_sink as before_sink_in, is_end_of as is_end_of_in, is_batch_handled as is_batch_handled_in};
ghost use Rattle.plain_handlers.specs.Tests.{line_where, outcome_test, outcome_by_sink, outcome_undone};

use crate::replies::{counted, is_own_reason, replies_until};
use crate::same::{same_bytes, same_end};
use pipe_types::bytes::Bytes;
use pipe_types::message::{BatchEnd, BatchReply, Message, Outcome, OutcomeList, Reply};
use pipe_types::reason::Reason;
use pipe_types::topology::{Kind, StageSpec};
use std::alloc::{AllocError, Global};

fn outcome_of(reply: &Reply) -> Outcome
    ensures { result ≡ outcome_of_in reply.now }
{
    match reply {
        Reply::Pass(_) => Outcome::Successful,
        Reply::Failed(why) => Outcome::Failed(*why),
        Reply::Raised(why) => Outcome::Failed(*why),
        Reply::Crashed => Outcome::Successful,
    }
}

fn outcomes_of(alloc: Global, replies: &[Reply]) -> Result<Vec<Outcome>, AllocError>
    ensures { IfOk result (λ outcomes. outcomes.items ≡ map outcome_of_in replies.now) }
{
    let mut outcomes = Vec::new(alloc);
    for reply in replies {
        outcomes.push(outcome_of(reply))?;
    }
    Ok(outcomes)
}

/// Puts the payload and LF of a passed message behind the text.
fn push_line(text: Vec<u8>, message: &Message) -> Result<Vec<u8>, AllocError>
    ensures { IfOk result (λ more. more.items ≡ text.items ++ (message.now.payload ++ 10 ∷ [])) }
{
    let mut more = text;
    more.extend_from_slice(message.payload.as_slice())?;
    more.push(b'\n')?;
    Ok(more)
}

fn passed_text(alloc: Global, replies: &[Reply]) -> Result<Vec<u8>, AllocError>
    ensures { IfOk result (λ text. text.items ≡ passed_lines replies.now) }
{
    let mut text = Vec::new(alloc);
    for reply in replies {
        if let Reply::Pass(message) = reply {
            text = push_line(text, message)?;
        }
    }
    Ok(text)
}

fn text_of(alloc: Global, kind: Kind, replies: &[Reply]) -> Result<Vec<u8>, AllocError>
    ensures { IfOk result (λ text. text.items ≡ text_of_in kind replies.now) }
{
    match kind {
        Kind::Lines => passed_text(alloc, replies),
        _ => Ok(Vec::new(alloc)),
    }
}

/// The answer that these replies make, of which at most the last ends the batch.
fn answer_by(alloc: Global, kind: Kind, replies: &[Reply]) -> Result<BatchReply, AllocError>
    ensures { IfOk result (λ answer. answer ≡ answer_of kind [] replies.now) }
{
    for reply in replies {
        match reply {
            Reply::Raised(why) => return Ok(BatchReply::Raised(*why)),
            Reply::Crashed => return Ok(BatchReply::Crashed),
            _ => {}
        }
    }
    let outcomes = outcomes_of(alloc, replies)?;
    let text = text_of(alloc, kind, replies)?;
    Ok(BatchReply::Answered(OutcomeList::from_vec(outcomes), Bytes::from_vec(text)))
}

/// The answer to a batch of the stage's own handler.
pub fn batch_answer(
    alloc: Global,
    spec: &StageSpec,
    count: u64,
    messages: &[Message],
) -> Result<BatchReply, AllocError>
    ensures { IfOk result (λ answer. answer ≡ batch_answer_in spec.now count messages.now) }
{
    let replies = replies_until(alloc, false, spec, count, messages)?;
    answer_by(alloc, spec.kind, replies.as_slice())
}

/// The count that a batch leaves: each message that was evaluated adds one.
pub fn count_after_batch(
    alloc: Global,
    spec: &StageSpec,
    count: u64,
    messages: &[Message],
) -> Result<u64, AllocError>
    ensures { IfOk result (λ n. n ≡ count_after_batch_in spec.now count messages.now) }
{
    let replies = replies_until(alloc, false, spec, count, messages)?;
    Ok(counted(count, replies.len()))
}

fn outcome_with(failed: Option<Reason>, outcome: &Outcome) -> Outcome
    ensures { result ≡ outcome_with_in failed outcome.now }
{
    match outcome {
        Outcome::Successful => Outcome::Successful,
        Outcome::Failed(why) => Outcome::Failed(failed.unwrap_or(*why)),
    }
}

fn with_reasons(
    alloc: Global,
    spec: &StageSpec,
    outcomes: &[Outcome],
) -> Result<Vec<Outcome>, AllocError>
    ensures { IfOk result (λ all. all.items ≡ map (outcome_with_in spec.now.failed) outcomes.now) }
{
    let mut all = Vec::new(alloc);
    for outcome in outcomes {
        all.push(outcome_with(spec.failed, outcome))?;
    }
    Ok(all)
}

fn all_failed(alloc: Global, why: Reason, messages: &[Message]) -> Result<Vec<Outcome>, AllocError>
    ensures { IfOk result (λ all. all.items ≡ map (λ m. Outcome.Failed why) messages.now) }
{
    let mut all = Vec::new(alloc);
    for message in messages {
        all.push(Outcome::Failed(why))?;
    }
    Ok(all)
}

/// How a batch ends by an answer: a raise fails every message.
fn end_by(
    alloc: Global,
    spec: &StageSpec,
    messages: &[Message],
    answer: &BatchReply,
) -> Result<BatchEnd, AllocError>
    ensures { IfOk result (λ end. end ≡ end_by_in spec.now.failed messages.now answer.now) }
{
    match answer {
        BatchReply::Answered(outcomes, _) => {
            let all = with_reasons(alloc, spec, outcomes.as_slice())?;
            Ok(BatchEnd::Outcomes(OutcomeList::from_vec(all)))
        }
        BatchReply::Raised(why) => {
            let all = all_failed(alloc, spec.failed.unwrap_or(*why), messages)?;
            Ok(BatchEnd::Outcomes(OutcomeList::from_vec(all)))
        }
        BatchReply::Crashed => Ok(BatchEnd::Crashed),
    }
}

fn text_in(answer: &BatchReply) -> &[u8]
    ensures { result.now ≡ text_by answer.now }
{
    match answer {
        BatchReply::Answered(_, text) => text.as_slice(),
        _ => &[],
    }
}

fn sink_reason() -> Reason
    ensures { result ≡ sink_reason_in }
{
    match Reason::new(b"sink") {
        Some(reason) => reason,
        None => unreachable!(),
    }
}

fn by_sink(outcome: &Outcome) -> Outcome
    ensures { result ≡ outcome_by_sink outcome.now }
{
    match outcome {
        Outcome::Successful => Outcome::Failed(sink_reason()),
        Outcome::Failed(why) => Outcome::Failed(*why),
    }
}

/// Each successful message fails by the sink.
fn failed_by_sink(alloc: Global, end: &BatchEnd) -> Result<BatchEnd, AllocError>
    ensures { IfOk result (λ failed. failed ≡ failed_by_sink_in end.now) }
{
    match end {
        BatchEnd::Crashed => Ok(BatchEnd::Crashed),
        BatchEnd::Outcomes(outcomes) => {
            let all = each_by_sink(alloc, outcomes.as_slice())?;
            Ok(BatchEnd::Outcomes(OutcomeList::from_vec(all)))
        }
    }
}

fn each_by_sink(alloc: Global, outcomes: &[Outcome]) -> Result<Vec<Outcome>, AllocError>
    ensures { IfOk result (λ all. all.items ≡ map outcome_by_sink outcomes.now) }
{
    let mut all = Vec::new(alloc);
    for outcome in outcomes {
        all.push(by_sink(outcome))?;
    }
    Ok(all)
}

fn is_failed_by_sink(outcome: &Outcome) -> bool
    ensures { result ≡ is_failed_by_sink_in outcome.now }
{
    match outcome {
        Outcome::Successful => false,
        Outcome::Failed(why) => same_bytes(why.as_bytes(), b"sink"),
    }
}

fn undone(outcome: &Outcome) -> Outcome
    ensures { result ≡ outcome_undone outcome.now }
{
    if is_failed_by_sink(outcome) {
        return Outcome::Successful;
    }
    *outcome
}

fn each_undone(alloc: Global, outcomes: &[Outcome]) -> Result<Vec<Outcome>, AllocError>
    ensures { IfOk result (λ all. all.items ≡ map outcome_undone outcomes.now) }
{
    let mut all = Vec::new(alloc);
    for outcome in outcomes {
        all.push(undone(outcome))?;
    }
    Ok(all)
}

/// What an own handler ended with, where the sink may have failed its successes.
fn before_sink(alloc: Global, end: &BatchEnd) -> Result<BatchEnd, AllocError>
    ensures { IfOk result (λ before. before ≡ before_sink_in end.now) }
{
    match end {
        BatchEnd::Crashed => Ok(BatchEnd::Crashed),
        BatchEnd::Outcomes(outcomes) => {
            let all = each_undone(alloc, outcomes.as_slice())?;
            Ok(BatchEnd::Outcomes(OutcomeList::from_vec(all)))
        }
    }
}

/// Whether the sink took so many bytes of this text where the handler ended so: all, or fewer and each success fails;
/// without a sink none, and a crash writes none.
fn is_write_end(
    alloc: Global,
    has_sink: bool,
    handled: &BatchEnd,
    text: &[u8],
    bytes: u64,
    end: &BatchEnd,
) -> Result<bool, AllocError>
    ensures { IfOk result (λ is. is ≡ is_write_end_in has_sink handled.now text.now bytes end.now) }
{
    if let BatchEnd::Crashed = handled {
        return Ok(bytes == 0 && same_end(end, &BatchEnd::Crashed));
    }
    if !has_sink {
        return Ok(bytes == 0 && same_end(end, handled));
    }
    let failed = failed_by_sink(alloc, handled)?;
    let whole = text.len() as u64;
    Ok((bytes == whole && same_end(end, handled)) || (bytes < whole && same_end(end, &failed)))
}

/// Whether the outcome is successful, or where `by_sink` holds failed by the sink.
fn passes(by_sink: bool, outcome: &Outcome) -> bool
    ensures { result ≡ outcome_test by_sink outcome.now }
{
    if by_sink {
        return is_failed_by_sink(outcome);
    }
    match outcome {
        Outcome::Successful => true,
        Outcome::Failed(_) => false,
    }
}

fn any_passes(by_sink: bool, outcomes: &[Outcome]) -> bool
    ensures { result ≡ list_any (outcome_test by_sink) outcomes.now }
{
    for outcome in outcomes {
        if passes(by_sink, outcome) {
            return true;
        }
    }
    false
}

/// Puts the payload and LF of the message behind the text, where its outcome passes.
fn push_passing(
    text: Vec<u8>,
    by_sink: bool,
    message: &Message,
    outcome: &Outcome,
) -> Result<Vec<u8>, AllocError>
    ensures { IfOk result (λ more. more.items ≡ text.items ++ line_where (outcome_test by_sink) message.now outcome.now) }
{
    if passes(by_sink, outcome) {
        return push_line(text, message);
    }
    Ok(text)
}

/// The payload and LF of each message whose outcome passes.
fn lines_of(
    alloc: Global,
    by_sink: bool,
    messages: &[Message],
    outcomes: &[Outcome],
) -> Result<Vec<u8>, AllocError>
    ensures { IfOk result (λ text. text.items ≡ lines_where (outcome_test by_sink) messages.now outcomes.now) }
{
    let mut text = Vec::new(alloc);
    for i in 0..messages.len() {
        if outcomes.len() <= i {
            return Ok(text);
        }
        text = push_passing(text, by_sink, &messages[i], &outcomes[i])?;
    }
    Ok(text)
}

/// The text of an own handler's batch: its successful messages, or where there is none those that the sink failed.
fn own_text(alloc: Global, messages: &[Message], end: &BatchEnd) -> Result<Vec<u8>, AllocError>
    ensures { IfOk result (λ text. text.items ≡ own_text_in messages.now end.now) }
{
    match end {
        BatchEnd::Crashed => Ok(Vec::new(alloc)),
        BatchEnd::Outcomes(outcomes) => {
            let outcomes = outcomes.as_slice();
            if any_passes(false, outcomes) {
                lines_of(alloc, false, messages, outcomes)
            } else {
                lines_of(alloc, true, messages, outcomes)
            }
        }
    }
}

fn is_own_outcome(outcome: &Outcome) -> bool
    ensures { result ≡ is_own_outcome_in outcome.now }
{
    match outcome {
        Outcome::Successful => true,
        Outcome::Failed(why) => is_own_reason(why),
    }
}

fn are_own_outcomes(outcomes: &[Outcome]) -> bool
    ensures { result ≡ list_all is_own_outcome_in outcomes.now }
{
    for outcome in outcomes {
        if !is_own_outcome(outcome) {
            return false;
        }
    }
    true
}

/// Whether there is one outcome a message, or a crash.
fn is_own_end(messages: &[Message], end: &BatchEnd) -> bool
    ensures { result ≡ is_own_end_in messages.now end.now }
{
    match end {
        BatchEnd::Crashed => true,
        BatchEnd::Outcomes(outcomes) => {
            outcomes.as_slice().len() == messages.len() && are_own_outcomes(outcomes.as_slice())
        }
    }
}

/// Whether an own handler may have ended so, with the sink's part in it.
fn is_own_write(
    alloc: Global,
    has_sink: bool,
    messages: &[Message],
    handled: &BatchEnd,
    bytes: u64,
    end: &BatchEnd,
) -> Result<bool, AllocError>
    ensures { IfOk result (λ is. is ≡ is_own_end_in messages.now handled.now && is_write_end_in has_sink handled.now (own_text_in messages.now handled.now) bytes end.now) }
{
    let text = own_text(alloc, messages, handled)?;
    let written = is_write_end(alloc, has_sink, handled, text.as_slice(), bytes, end)?;
    Ok(is_own_end(messages, handled) && written)
}

/// Whether the end and the bytes are the handler's and the sink's.
fn is_end_of(
    alloc: Global,
    spec: &StageSpec,
    count: u64,
    messages: &[Message],
    bytes: u64,
    end: &BatchEnd,
) -> Result<bool, AllocError>
    ensures { IfOk result (λ is. is ≡ is_end_of_in spec.now count messages.now bytes end.now) }
{
    let has_sink = spec.edge.is_some();
    if let Kind::Own = spec.kind {
        let before = before_sink(alloc, end)?;
        let as_told = is_own_write(alloc, has_sink, messages, end, bytes, end)?;
        let by_sink = is_own_write(alloc, has_sink, messages, &before, bytes, end)?;
        return Ok(as_told || by_sink);
    }
    let answer = batch_answer(alloc, spec, count, messages)?;
    let handled = end_by(alloc, spec, messages, &answer)?;
    is_write_end(alloc, has_sink, &handled, text_in(&answer), bytes, end)
}

/// Whether the batch that the stage has taken may end so, with so many bytes written.
pub fn is_batch_handled(
    alloc: Global,
    spec: Option<&StageSpec>,
    count: u64,
    messages: &[Message],
    bytes: u64,
    end: &BatchEnd,
) -> Result<bool, AllocError>
    ensures { IfOk result (λ is. is ≡ is_batch_handled_in (option_copied spec.entry) count messages.now bytes end.now) }
{
    match spec {
        Some(spec) => is_end_of(alloc, spec, count, messages, bytes, end),
        None => Ok(false),
    }
}
