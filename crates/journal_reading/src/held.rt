//! What the types of a journal's steps keep: numbers of their width, bytes that are bytes, and reasons that are reasons. Each
//! function does nothing, and its clauses say what the type of its argument keeps.

ghost use Rattle.pipe_journal.specs.{Items.{reply_seen, records_seen, replies_seen}, Views.{end_seen, answer_seen, step_seen}};
ghost use Rattle.line_reading.specs.Spelling.{Each, IsShort, IsNumber, IsLong, IsWhy, IsStage};
ghost use Rattle.reading_laws.specs.Fields.{AreBytes, IsHeldReply, IsHeldOutcome, IsHeldEnd, IsHeldAnswer, IsHeld, AreHeld, IsCountable};

use pipe_journal::{
    AnswerView, EndView, Journal, MessageView, Records, Replies, ReplyView, StepView,
};
use pipe_types::message::Outcome;
use pipe_types::numbers::{MsgNo, StageNo, SubNo};
use pipe_types::reason::Reason;

fn hold_bytes(bytes: &[u8])
    ensures { AreBytes bytes.now }
{
    let _bytes = bytes;
}

fn hold_stage(stage: StageNo)
    ensures { IsStage stage }
{
    let _number = stage.0;
}

fn hold_short(n: u16)
    ensures { IsShort n }
{
    let _n = n;
}

fn hold_word(n: u32)
    ensures { IsNumber n }
{
    let _n = n;
}

fn hold_long(n: u64)
    ensures { IsLong n }
{
    let _n = n;
}

fn hold_sub(sub: SubNo)
    ensures consumer { IsStage sub.consumer }
    ensures producer { IsStage sub.producer }
    ensures generation { IsNumber sub.generation }
{
    hold_stage(sub.consumer);
    hold_stage(sub.producer);
    hold_word(sub.generation);
}

fn hold_number(no: MsgNo)
    ensures { IsNumber no.0 }
{
    let _number = no.0;
}

fn hold_records(records: Records<'_>)
    ensures { Each AreBytes (records_seen records.entry) }
{
    for at in 0..records.len() {
        hold_bytes(records.item(at));
    }
}

fn hold_message(message: MessageView<'_>)
    ensures batcher { IsShort message.entry.batcher }
    ensures key { AreBytes message.entry.key.now }
    ensures payload { AreBytes message.entry.payload.now }
{
    let _batcher = message.batcher;
    hold_bytes(message.key);
    hold_bytes(message.payload);
}

fn hold_reason(why: &Reason)
    ensures { IsWhy why.now }
{
    hold_bytes(why.as_bytes());
}

fn hold_reply(reply: ReplyView<'_>)
    ensures { IsHeldReply (reply_seen reply.entry) }
{
    match reply {
        ReplyView::Pass(message) => hold_message(message),
        ReplyView::Failed(why) => hold_reason(why),
        ReplyView::Raised(why) => hold_reason(why),
        ReplyView::Crashed => {}
    }
}

fn hold_replies(replies: Replies<'_>)
    ensures { Each IsHeldReply (replies_seen replies.entry) }
{
    for at in 0..replies.len() {
        hold_reply(replies.item(at));
    }
}

fn hold_outcome(outcome: &Outcome)
    ensures { IsHeldOutcome outcome.now }
{
    match outcome {
        Outcome::Successful => {}
        Outcome::Failed(why) => hold_reason(why),
    }
}

fn hold_outcomes(outcomes: &[Outcome])
    ensures { Each IsHeldOutcome outcomes.now }
{
    for at in 0..outcomes.len() {
        hold_outcome(&outcomes[at]);
    }
}

fn hold_end(end: EndView<'_>)
    ensures { IsHeldEnd (end_seen end.entry) }
{
    match end {
        EndView::Outcomes(outcomes) => hold_outcomes(outcomes),
        EndView::Successes(_) => {}
        EndView::Crashed => {}
    }
}

#[tactic(auto, unfolding(reading_laws::specs::Fields::IsHeldAnswer))]
fn hold_answer(answer: AnswerView<'_>)
    ensures { IsHeldAnswer (answer_seen answer.entry) }
{
    match answer {
        AnswerView::Records(records) => hold_records(Records::Listed(records)),
        AnswerView::Wrote(bytes, end) => {
            hold_long(bytes);
            hold_end(end);
        }
        AnswerView::Quiet | AnswerView::Source(_) | AnswerView::Nothing => {}
    }
}

#[tactic(auto, unfolding(reading_laws::specs::Fields::IsHeld))]
fn hold_step(step: StepView<'_>)
    ensures { IsHeld (step_seen step.entry) }
{
    match step {
        StepView::Ask { sub, n } => {
            hold_sub(sub);
            hold_word(n);
        }
        StepView::Fetch { stage, n } => {
            hold_stage(stage);
            hold_word(n);
        }
        StepView::Accept { stage, records } => {
            hold_stage(stage);
            hold_records(records);
        }
        StepView::Quiet { stage } => hold_stage(stage),
        StepView::SourceEnd { stage, how: _ } => hold_stage(stage),
        StepView::Dispatch { stage } => hold_stage(stage),
        StepView::Take { stage, sub, k } => {
            hold_stage(stage);
            hold_sub(sub);
            hold_word(k);
        }
        StepView::Done { stage, replies } => {
            hold_stage(stage);
            hold_replies(replies);
        }
        StepView::Gather { stage, no } => {
            hold_stage(stage);
            hold_number(no);
        }
        StepView::Close {
            stage,
            first,
            trigger: _,
        } => {
            hold_stage(stage);
            hold_number(first);
        }
        StepView::Wrote { stage, bytes, end } => {
            hold_stage(stage);
            hold_long(bytes);
            hold_end(end);
        }
        StepView::Child { stage, no, slot } => {
            hold_stage(stage);
            hold_number(no);
            hold_short(slot);
        }
        StepView::ChildEnd { stage, slot, reply } => {
            hold_stage(stage);
            hold_short(slot);
            hold_reply(reply);
        }
        StepView::Kill { stage, why: _ } => hold_stage(stage),
        StepView::Late {
            stage,
            slot,
            incarnation,
            answer,
        } => {
            hold_stage(stage);
            hold_short(slot);
            hold_word(incarnation);
            hold_answer(answer);
        }
        StepView::Restart { stage } => hold_stage(stage),
        StepView::Tick { now } => hold_long(now),
        StepView::Drain { cause: _ } => {}
        StepView::Halt => {}
        StepView::Refuse { line } => hold_word(line),
    }
}

/// The steps of a journal, one by one.
pub(crate) fn hold_steps(journal: &Journal)
    ensures held { AreHeld journal.now.steps }
    ensures countable { IsCountable journal.now.steps }
{
    let count = journal.len();
    for at in 0..count {
        hold_step(journal.view(at));
    }
}
