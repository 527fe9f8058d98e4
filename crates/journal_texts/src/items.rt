//! Bytes in hexadecimal digits, and lists joined by commas.

ghost use Rattle.std.specs.{Prelude.{◌≡◌, ◌++◌, ◌<◌, ◌+◌, Bool, true, false, decimal, codes, replicate}, List.{flat_map}, Fmt.{digit_glyph}};
ghost use Rattle.pipe_types.specs.{declared.message.Reply.{Reply}, declared.message.Outcome.TheVariants.{Successful}};
ghost use Rattle.pipe_journal.specs.{Items.{message_seen, reply_seen, records_seen, replies_seen}, Views.{end_seen}};
ghost use Rattle.journal_texts.specs.Words.{byte_text, bytes_text, next_text, more_text, list_text, separator, number_word, words};
ghost use Rattle.journal_texts.specs.Steps.{flag_text, reply_text, outcome_text, ends_text};

use crate::sink::TextSink;
use itoa::Buffer;
use pipe_journal::{EndView, MessageView, Records, Replies, ReplyView};
use pipe_types::message::Outcome;

fn hex_digit(n: u8) -> u8
    requires { n < 16 }
    ensures { result ≡ digit_glyph false n }
{
    if n < 10 { 48 + n } else { 87 + n }
}

/// Writes the two digits of a byte.
fn put_byte<W: TextSink>(out: &mut W, byte: u8)
    ensures { W.puts out.old out.new (byte_text byte) }
{
    out.put(&[hex_digit(byte / 16), hex_digit(byte % 16)]);
}

fn put_digits<W: TextSink>(out: &mut W, bytes: &[u8])
    ensures { W.puts out.old out.new (flat_map byte_text bytes.now) }
{
    for byte in bytes {
        put_byte(out, *byte);
    }
}

/// Writes the bytes in hexadecimal digits, and `-` for none.
pub(crate) fn put_bytes<W: TextSink>(out: &mut W, bytes: &[u8])
    ensures { W.puts out.old out.new (bytes_text bytes.now) }
{
    match bytes.split_first() {
        Some((_, _)) => put_digits(out, bytes),
        None => out.put(b"-"),
    }
}

/// Writes the number.
fn put_number<W: TextSink>(out: &mut W, n: u64)
    ensures { W.puts out.old out.new (decimal n) }
{
    let mut buffer = Buffer::new();
    out.put(buffer.format(n).as_bytes());
}

fn put_number_word<W: TextSink>(out: &mut W, n: u64)
    ensures { W.puts out.old out.new (number_word n) }
{
    out.put(b" ");
    put_number(out, n);
}

fn put_numbers<W: TextSink>(out: &mut W, numbers: &[u64])
    ensures { W.puts out.old out.new (flat_map number_word numbers.now) }
{
    for n in numbers {
        put_number_word(out, *n);
    }
}

/// Writes the word, and each number after a space.
pub(crate) fn put_words<W: TextSink>(out: &mut W, word: &[u8], numbers: &[u64])
    ensures { W.puts out.old out.new (words word.now numbers.now) }
{
    out.put(word);
    put_numbers(out, numbers);
}

/// Writes the prefix and the bytes.
fn put_tagged<W: TextSink>(out: &mut W, tag: &[u8], bytes: &[u8])
    ensures { W.puts out.old out.new (tag.now ++ bytes_text bytes.now) }
{
    out.put(tag);
    put_bytes(out, bytes);
}

fn flag(is_set: bool) -> &'static [u8]
    ensures { result.now ≡ flag_text is_set }
{
    if is_set { b"1" } else { b"0" }
}

fn put_pass<W: TextSink>(out: &mut W, message: MessageView<'_>)
    ensures { W.puts out.old out.new (reply_text (Reply.Pass (message_seen message.entry))) }
{
    out.put(b"p:");
    put_number(out, message.batcher as u64);
    out.put(b":");
    out.put(flag(message.flush));
    put_tagged(out, b":", message.key);
    put_tagged(out, b":", message.payload);
}

/// Writes one reply.
pub(crate) fn put_reply<W: TextSink>(out: &mut W, reply: ReplyView<'_>)
    ensures { W.puts out.old out.new (reply_text (reply_seen reply.entry)) }
{
    match reply {
        ReplyView::Pass(message) => put_pass(out, message),
        ReplyView::Failed(why) => put_tagged(out, b"f:", why.as_bytes()),
        ReplyView::Raised(why) => put_tagged(out, b"r:", why.as_bytes()),
        ReplyView::Crashed => out.put(b"c"),
    }
}

fn put_outcome<W: TextSink>(out: &mut W, outcome: &Outcome)
    ensures { W.puts out.old out.new (outcome_text outcome.now) }
{
    match outcome {
        Outcome::Successful => out.put(b"s"),
        Outcome::Failed(why) => put_tagged(out, b"f:", why.as_bytes()),
    }
}

/// Writes what stands in front of the item at that place: a comma, but nothing in front of the first.
fn put_separator<W: TextSink>(out: &mut W, at: usize)
    ensures { W.puts out.old out.new (separator at) }
{
    if at > 0 {
        out.put(b",");
    }
}

/// Writes the record at that place of a list.
fn put_record<W: TextSink>(out: &mut W, at: usize, bytes: &[u8])
    ensures { W.puts out.old out.new (separator at ++ bytes_text bytes.now) }
{
    put_separator(out, at);
    put_bytes(out, bytes);
}

/// Writes the records, joined by commas.
pub(crate) fn put_records<W: TextSink>(out: &mut W, records: Records<'_>)
    ensures { W.puts out.old out.new (list_text bytes_text (records_seen records.entry)) }
{
    for at in 0..records.len() {
        put_record(out, at, records.item(at));
    }
}

/// Writes the reply at that place of a list.
fn put_one_reply<W: TextSink>(out: &mut W, at: usize, reply: ReplyView<'_>)
    ensures { W.puts out.old out.new (separator at ++ reply_text (reply_seen reply.entry)) }
{
    put_separator(out, at);
    put_reply(out, reply);
}

/// Writes the replies, joined by commas.
pub(crate) fn put_replies<W: TextSink>(out: &mut W, replies: Replies<'_>)
    ensures { W.puts out.old out.new (list_text reply_text (replies_seen replies.entry)) }
{
    for at in 0..replies.len() {
        put_one_reply(out, at, replies.item(at));
    }
}

/// Writes the success at that place of a list.
fn put_success<W: TextSink>(out: &mut W, at: u32)
    ensures { W.puts out.old out.new (separator at ++ outcome_text Successful) }
{
    put_separator(out, at as usize);
    out.put(b"s");
}

/// Writes so many successes, joined by commas.
fn put_successes<W: TextSink>(out: &mut W, count: u32)
    ensures { W.puts out.old out.new (list_text outcome_text (replicate count Successful)) }
{
    for at in 0..count {
        put_success(out, at);
    }
}

fn put_next_outcome<W: TextSink>(out: &mut W, outcome: &Outcome)
    ensures { W.puts out.old out.new (next_text outcome_text outcome.now) }
{
    out.put(b",");
    put_outcome(out, outcome);
}

fn put_more_outcomes<W: TextSink>(out: &mut W, outcomes: &[Outcome])
    ensures { W.puts out.old out.new (more_text outcome_text outcomes.now) }
{
    for outcome in outcomes {
        put_next_outcome(out, outcome);
    }
}

/// Writes the outcomes, joined by commas.
fn put_outcomes<W: TextSink>(out: &mut W, outcomes: &[Outcome])
    ensures { W.puts out.old out.new (list_text outcome_text outcomes.now) }
{
    match outcomes.split_first() {
        Some((first, others)) => {
            put_outcome(out, first);
            put_more_outcomes(out, others)
        }
        None => {}
    }
}

/// Writes the outcomes of a batch, joined by commas, or `c` where it crashed.
pub(crate) fn put_ends<W: TextSink>(out: &mut W, end: EndView<'_>)
    ensures { W.puts out.old out.new (ends_text (end_seen end.entry)) }
{
    match end {
        EndView::Outcomes(outcomes) => put_outcomes(out, outcomes),
        EndView::Successes(count) => put_successes(out, count),
        EndView::Crashed => out.put(b"c"),
    }
}
