//! Replies of handlers.

ghost use Rattle.std.specs.{Prelude.{◌≡◌, ◌≤◌, ◌<◌, length, nat_le, List, Result, Option, Some, None, Ok, Err, bytes_eq, codes}, List.{slice_split}};
ghost use Rattle.line_reading.specs.Reading.{Gives, texts_of, is_at};
ghost use Rattle.line_reading.specs.Lines.{items_from, list_in, limited_in, flag_in, named_in, by_rows, contents_in, passed_in, failed_in, raised_in, crashed_in, reply_rows, reply_in, reply_at};

use crate::fault::{Fault, ReadError};
use crate::fields::{bytes, parts, short};
use crate::items::{add, only_reason};
use crate::jobs::JobMessages;
use crate::words::is_word;
use pipe_types::bytes::Bytes;
use pipe_types::message::{Message, Reply, ReplyList};
use pipe_types::numbers::{MsgNo, Post, StageNo};
use std::alloc::Global;

/// A key or a payload.
#[tactic(auto, using(crate::proofs::Loops::fails_bind))]
fn limited(alloc: Global, text: &[u8]) -> Result<Bytes, ReadError>
    ensures { Gives (λ b. b) result (limited_in text.now) }
{
    let bytes = bytes(alloc, text)?;
    if bytes.len() <= 65_536 {
        Ok(bytes)
    } else {
        Err(ReadError::Fault(Fault::Bytes))
    }
}

/// Whether the message has flush mode.
fn flag(text: &[u8]) -> Result<bool, ReadError>
    ensures { Gives (λ f. f) result (flag_in text.now) }
{
    if is_word(text, b"0") {
        Ok(false)
    } else if is_word(text, b"1") {
        Ok(true)
    } else {
        Err(ReadError::Fault(Fault::Number))
    }
}

/// The message that there must be.
fn known(message: Option<(MsgNo, StageNo)>) -> Result<(MsgNo, StageNo), ReadError>
    ensures { Gives (λ m. m) result (named_in message) }
{
    match message {
        Some(message) => Ok(message),
        None => Err(ReadError::Fault(Fault::Number)),
    }
}

/// `KEY:PAYLOAD`
#[tactic(auto, unfolding(crate::specs::Lines::contents_in), using(crate::proofs::Loops::fails_bind))]
fn contents(alloc: Global, key: &[u8], payload: &[u8]) -> Result<(Bytes, Bytes), ReadError>
    ensures { Gives (λ c. c) result (contents_in key.now payload.now) }
{
    let key = limited(alloc, key)?;
    let payload = limited(alloc, payload)?;
    Ok((key, payload))
}

/// `BATCHER:FLUSH:KEY:PAYLOAD`, of this message.
#[tactic(auto, using(crate::proofs::Loops::fails_bind))]
fn passed(
    alloc: Global,
    message: Option<(MsgNo, StageNo)>,
    words: &[&[u8]],
) -> Result<Reply, ReadError>
    ensures { Gives (λ r. r) result (passed_in message (texts_of words.now)) }
{
    match words {
        [batcher, flush, key, payload] => {
            let batcher = short(batcher)?;
            let flush = flag(flush)?;
            let message = known(message)?;
            let contents = contents(alloc, key, payload)?;
            Ok(Reply::Pass(Message {
                payload: contents.1,
                key: contents.0,
                no: message.0,
                producer: message.1,
                batcher,
                flush,
            }))
        }
        _ => Err(ReadError::Fault(Fault::Bytes)),
    }
}

#[tactic(auto, using(crate::proofs::Loops::fails_bind))]
fn failed(alloc: Global, words: &[&[u8]]) -> Result<Reply, ReadError>
    ensures { Gives (λ r. r) result (failed_in (texts_of words.now)) }
{
    let why = only_reason(alloc, words)?;
    Ok(Reply::Failed(why))
}

#[tactic(auto, using(crate::proofs::Loops::fails_bind))]
fn raised(alloc: Global, words: &[&[u8]]) -> Result<Reply, ReadError>
    ensures { Gives (λ r. r) result (raised_in (texts_of words.now)) }
{
    let why = only_reason(alloc, words)?;
    Ok(Reply::Raised(why))
}

fn crashed(words: &[&[u8]]) -> Result<Reply, ReadError>
    ensures { Gives (λ r. r) result (crashed_in (texts_of words.now)) }
{
    match words {
        [] => Ok(Reply::Crashed),
        _ => Err(ReadError::Fault(Fault::Bytes)),
    }
}

/// A reply by its first part and the others, where this is its message.
fn reply_of(
    alloc: Global,
    message: Option<(MsgNo, StageNo)>,
    word: &[u8],
    words: &[&[u8]],
) -> Result<Reply, ReadError>
    ensures { Gives (λ r. r) result (by_rows Fault.Bytes (reply_rows message) word.now (texts_of words.now)) }
{
    if is_word(word, b"p") {
        passed(alloc, message, words)
    } else if is_word(word, b"f") {
        failed(alloc, words)
    } else if is_word(word, b"r") {
        raised(alloc, words)
    } else if is_word(word, b"c") {
        crashed(words)
    } else {
        Err(ReadError::Fault(Fault::Bytes))
    }
}

/// The reply that the text spells, where this is its message.
#[tactic(auto, unfolding(crate::specs::Lines::reply_in))]
pub(crate) fn reply(
    alloc: Global,
    message: Option<(MsgNo, StageNo)>,
    text: &[u8],
) -> Result<Reply, ReadError>
    ensures { Gives (λ r. r) result (reply_in message text.now) }
{
    let parts = parts(alloc, text, b':')?;
    match parts.as_slice().split_first() {
        Some((word, others)) => reply_of(alloc, message, word, others),
        None => Err(ReadError::Fault(Fault::Bytes)),
    }
}

/// The replies that the texts spell.
fn read_replies<J: JobMessages>(
    alloc: Global,
    run: &J,
    post: Post,
    texts: &[&[u8]],
) -> Result<Vec<Reply>, ReadError>
    ensures { Gives (λ v. v.items) result (items_from (reply_at (J.jobs run.now post)) 0 (texts_of texts.now)) }
{
    let mut replies = Vec::new(alloc);
    let mut bad = false;
    for (at, text) in texts.iter().enumerate() {
        bad = add(
            &mut replies,
            bad,
            reply(alloc, run.message_at(post, at), text),
        )?;
    }
    if bad {
        Err(ReadError::Fault(Fault::Bytes))
    } else {
        Ok(replies)
    }
}

/// The replies that the text spells, joined by commas.
#[tactic(auto, unfolding(crate::specs::Lines::list_in))]
pub(crate) fn replies<J: JobMessages>(
    alloc: Global,
    run: &J,
    post: Post,
    text: &[u8],
) -> Result<ReplyList, ReadError>
    ensures { Gives (λ l. l) result (list_in (reply_at (J.jobs run.now post)) text.now) }
{
    let texts = parts(alloc, text, b',')?;
    let replies = read_replies(alloc, run, post, texts.as_slice())?;
    Ok(ReplyList::from_vec(replies))
}
