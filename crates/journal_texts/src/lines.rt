//! The line of a step.

ghost use Rattle.std.specs.{Prelude.{◌≡◌, ◌++◌, [], ◌∷◌, IfOk, codes, reverse}, List.{flat_map}};
ghost use Rattle.pipe_journal.specs.{Items.{reply_seen, records_seen, replies_seen}, Views.{end_seen, answer_seen, step_seen}};
ghost use Rattle.journal_texts.specs.Words.{words};
ghost use Rattle.journal_texts.specs.Steps.{trigger_word as word_of_trigger, why_word as word_of_why, ends_text, answer_text, step_text, step_line as line_of_step, journal_text as text_of_journal};

use crate::items::{put_ends, put_records, put_replies, put_reply, put_words};
use crate::memory::MemoryText;
use crate::sink::TextSink;
use crate::words::{cause_word, how_word};
use pipe_journal::{AnswerView, EndView, Journal, Records, Replies, ReplyView, StepView};
use pipe_types::bytes::Bytes;
use pipe_types::message::{Trigger, Why};
use pipe_types::numbers::{MsgNo, StageNo, SubNo};
use pipe_types::step::{DrainCause, Step};
use std::alloc::{AllocError, Global};

fn trigger_word(trigger: Trigger) -> &'static [u8]
    ensures { result.now ≡ word_of_trigger trigger }
{
    match trigger {
        Trigger::Size => b"size",
        Trigger::Flush => b"flush",
        Trigger::Timeout => b"timeout",
    }
}

fn why_word(why: Why) -> &'static [u8]
    ensures { result.now ≡ word_of_why why }
{
    match why {
        Why::Crash => b"crash",
        Why::Kill => b"kill",
        Why::Stop => b"stop",
        Why::Cancelled(_) | Why::Limit => b"",
    }
}

/// Writes a word, numbers, and one more word.
fn put_words_and<W: TextSink>(out: &mut W, word: &[u8], numbers: &[u64], last: &[u8])
    ensures { W.puts out.old out.new (words word.now numbers.now ++ codes " " ++ last.now) }
{
    put_words(out, word, numbers);
    out.put(b" ");
    out.put(last);
}

/// Writes a word, numbers, and the space before what follows.
fn put_head<W: TextSink>(out: &mut W, word: &[u8], numbers: &[u64])
    ensures { W.puts out.old out.new (words word.now numbers.now ++ codes " ") }
{
    put_words(out, word, numbers);
    out.put(b" ");
}

fn put_wrote<W: TextSink>(out: &mut W, numbers: &[u64], end: EndView<'_>)
    ensures { W.puts out.old out.new (words (codes "wrote") numbers.now ++ codes " " ++ ends_text (end_seen end.entry)) }
{
    put_head(out, b"wrote", numbers);
    put_ends(out, end);
}

fn put_answer<W: TextSink>(out: &mut W, answer: AnswerView<'_>)
    ensures { W.puts out.old out.new (answer_text (answer_seen answer.entry)) }
{
    match answer {
        AnswerView::Records(records) => {
            out.put(b"records ");
            put_records(out, Records::Listed(records))
        }
        AnswerView::Quiet => out.put(b"quiet"),
        AnswerView::Source(how) => {
            out.put(b"source ");
            out.put(how_word(how))
        }
        AnswerView::Wrote(bytes, end) => put_wrote(out, &[bytes], end),
        AnswerView::Nothing => out.put(b"none"),
    }
}

fn put_accept<W: TextSink>(out: &mut W, stage: StageNo, records: Records<'_>)
    ensures { W.puts out.old out.new (step_text (Step.Accept stage (records_seen records.entry))) }
{
    put_head(out, b"accept", &[stage.0 as u64]);
    put_records(out, records);
}

fn put_done<W: TextSink>(out: &mut W, stage: StageNo, replies: Replies<'_>)
    ensures { W.puts out.old out.new (step_text (Step.Done stage (replies_seen replies.entry))) }
{
    put_head(out, b"done", &[stage.0 as u64]);
    put_replies(out, replies);
}

fn put_child_end<W: TextSink>(out: &mut W, stage: StageNo, slot: u16, reply: ReplyView<'_>)
    ensures { W.puts out.old out.new (step_text (Step.ChildEnd stage slot (reply_seen reply.entry))) }
{
    put_head(out, b"childend", &[stage.0 as u64, slot as u64]);
    put_reply(out, reply);
}

fn put_late<W: TextSink>(
    out: &mut W,
    stage: StageNo,
    slot: u16,
    incarnation: u32,
    answer: AnswerView<'_>,
)
    ensures { W.puts out.old out.new (step_text (Step.Late stage slot incarnation (answer_seen answer.entry))) }
{
    put_head(
        out,
        b"late",
        &[stage.0 as u64, slot as u64, incarnation as u64],
    );
    put_answer(out, answer);
}

fn put_ask<W: TextSink>(out: &mut W, sub: SubNo, n: u32)
    ensures { W.puts out.old out.new (step_text (Step.Ask sub n)) }
{
    let consumer = sub.consumer.0 as u64;
    let producer = sub.producer.0 as u64;
    put_words(
        out,
        b"ask",
        &[consumer, producer, sub.generation as u64, n as u64],
    );
}

fn put_take<W: TextSink>(out: &mut W, stage: StageNo, sub: SubNo, k: u32)
    ensures { W.puts out.old out.new (step_text (Step.Take stage sub k)) }
{
    let producer = sub.producer.0 as u64;
    put_words(
        out,
        b"take",
        &[stage.0 as u64, producer, sub.generation as u64, k as u64],
    );
}

fn put_close<W: TextSink>(out: &mut W, stage: StageNo, first: MsgNo, trigger: Trigger)
    ensures { W.puts out.old out.new (step_text (Step.Close stage first trigger)) }
{
    put_words_and(
        out,
        b"close",
        &[stage.0 as u64, first.0 as u64],
        trigger_word(trigger),
    );
}

fn put_drain<W: TextSink>(out: &mut W, cause: DrainCause)
    ensures { W.puts out.old out.new (step_text (Step.Drain cause)) }
{
    out.put(b"drain ");
    out.put(cause_word(cause));
}

/// Writes the words of a step.
fn put_step<W: TextSink>(out: &mut W, step: StepView<'_>)
    ensures { W.puts out.old out.new (step_text (step_seen step.entry)) }
{
    match step {
        StepView::Ask { sub, n } => put_ask(out, sub, n),
        StepView::Fetch { stage, n } => put_words(out, b"fetch", &[stage.0 as u64, n as u64]),
        StepView::Accept { stage, records } => put_accept(out, stage, records),
        StepView::Quiet { stage } => put_words(out, b"quiet", &[stage.0 as u64]),
        StepView::SourceEnd { stage, how } => {
            put_words_and(out, b"source", &[stage.0 as u64], how_word(how))
        }
        StepView::Dispatch { stage } => put_words(out, b"dispatch", &[stage.0 as u64]),
        StepView::Take { stage, sub, k } => put_take(out, stage, sub, k),
        StepView::Done { stage, replies } => put_done(out, stage, replies),
        StepView::Gather { stage, no } => put_words(out, b"gather", &[stage.0 as u64, no.0 as u64]),
        StepView::Close {
            stage,
            first,
            trigger,
        } => put_close(out, stage, first, trigger),
        StepView::Wrote { stage, bytes, end } => put_wrote(out, &[stage.0 as u64, bytes], end),
        StepView::Child { stage, no, slot } => {
            put_words(out, b"child", &[stage.0 as u64, no.0 as u64, slot as u64])
        }
        StepView::ChildEnd { stage, slot, reply } => put_child_end(out, stage, slot, reply),
        StepView::Kill { stage, why } => {
            put_words_and(out, b"kill", &[stage.0 as u64], why_word(why))
        }
        StepView::Late {
            stage,
            slot,
            incarnation,
            answer,
        } => put_late(out, stage, slot, incarnation, answer),
        StepView::Restart { stage } => put_words(out, b"restart", &[stage.0 as u64]),
        StepView::Tick { now } => put_words(out, b"tick", &[now]),
        StepView::Drain { cause } => put_drain(out, cause),
        StepView::Halt => out.put(b"halt"),
        StepView::Refuse { line } => put_words(out, b"refuse", &[line as u64]),
    }
}

/// Writes the line of a step.
fn put_line<W: TextSink>(out: &mut W, step: StepView<'_>)
    ensures { W.puts out.old out.new (line_of_step (step_seen step.entry)) }
{
    put_step(out, step);
    out.put(b"\n");
}

/// Writes the lines of the steps.
fn put_lines<W: TextSink>(out: &mut W, journal: &Journal)
    ensures { W.puts out.old out.new (flat_map line_of_step (reverse journal.now.steps)) }
{
    for at in 0..journal.len() {
        put_line(out, journal.view(at));
    }
}

/// Writes the text of a journal: its head, the line of each step, and the number of steps.
pub fn put_journal<W: TextSink>(out: &mut W, journal: &Journal)
    ensures { W.puts out.old out.new (text_of_journal journal.now.steps) }
{
    out.put(b"journal 1\n");
    put_lines(out, journal);
    put_words(out, b"end", &[journal.len()]);
    out.put(b"\n");
}

/// The line of a step in the journal's text, with its end. A step of a legal journal can be read back from it; a list
/// with no item, or a kill for another reason than a crash, a kill or a stop, has a line that cannot be read.
pub fn step_line(alloc: Global, step: &Step) -> Result<Bytes, AllocError>
    ensures { IfOk result (λ line. line ≡ line_of_step step.now) }
{
    let mut out = MemoryText::new(alloc);
    put_line(&mut out, StepView::of(step));
    out.into_bytes()
}

/// The text of a journal: its head, the line of each step, and the number of steps.
pub fn journal_text(alloc: Global, journal: &Journal) -> Result<Bytes, AllocError>
    ensures { IfOk result (λ text. text ≡ text_of_journal journal.now.steps) }
{
    let mut out = MemoryText::new(alloc);
    put_journal(&mut out, journal);
    out.into_bytes()
}
