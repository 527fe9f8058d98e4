//! The records and the replies of a journal, packed. A reply that passes its message's record on unchanged has no bytes of its own.

ghost use Rattle.std.specs.Prelude.{◌≡◌, List, ℕ, [], ◌∷◌, ◌++◌, ◌+◌, ◌<◌, length, slice_get, bytes_eq, Some, true, IfOk, OnOk};
ghost use Rattle.pipe_types.specs.declared.message.Reply.{Reply as ReplyOf};
ghost use Rattle.pipe_journal.specs.{Grown.{Extends, IsAdded, AreAdded}, Packed.{text_at, reply_of, IsFound, IsKept, IsRecord}, Items.{reply_seen}};

use crate::items::{MessageView, ReplyView};
use crate::shelf::Shelf;
use pipe_types::bytes::Bytes;
use pipe_types::message::{Message, Reply};
use pipe_types::numbers::{MsgNo, StageNo};
use pipe_types::reason::Reason;
use std::alloc::{AllocError, Global};
use std::marker::Model;

/// A reply whose texts stand on shelves.
#[derive(Clone, Copy)]
pub enum KeptReply {
    // A passed message with the payload of the record that was accepted as its number.
    Same {
        flush: bool,
        producer: StageNo,
        batcher: u16,
        no: MsgNo,
        key: u32,
    },
    // A passed message whose payload is the word behind its key.
    Changed {
        flush: bool,
        producer: StageNo,
        batcher: u16,
        no: MsgNo,
        key: u32,
    },
    Failed(u32),
    Raised(u32),
    Crashed,
}

/// Records and replies, in the order in which they came.
#[derive(Drop)]
pub struct Kept {
    records: Shelf,
    // Keys, and payloads that are not their records'.
    words: Shelf,
    reasons: Vec<Reason>,
    replies: Vec<KeptReply>,
}

impl Model for Kept {
    ghost use Rattle.std.specs.Prelude.{map};
    ghost use Rattle.pipe_journal.specs.Seen.{KeptSeen};

    ghost Value = { KeptSeen };

    ghost use Rattle.pipe_journal.specs.Packed.{text_at, reply_of, AreFound};

    ghost view = { λ k. record { records = k.records; replies = map (reply_of k.records k.words k.reasons.items) k.replies.items } };

    ghost invariant = { λ k. AreFound k.records k.words k.reasons.items k.replies.items };
}

/// The count in half its width. One that does not fit is answered as want of memory.
fn short(count: usize) -> Result<u32, AllocError>
    ensures { IfOk result (λ n. n ≡ count) }
{
    if count > u32::MAX as usize {
        Err(AllocError)
    } else {
        Ok(count as u32)
    }
}

/// Puts the word behind the others, and answers its place.
fn add_word(words: &mut Shelf, word: &[u8]) -> Result<u32, AllocError>
    ensures added { IfOk result (λ at. IsAdded at words.old word.now words.new) }
    ensures extends { Extends words.old words.new }
{
    let at = short(words.len())?;
    words.push(word)?;
    Ok(at)
}

/// Whether the two are the same.
fn is_same(one: &[u8], other: &[u8]) -> bool
    ensures { result ≡ bytes_eq one.now other.now }
{
    one == other
}

/// Whether the text stands at that place.
fn is_at(texts: &Shelf, at: usize, text: &[u8]) -> bool
    ensures { result ≡ true → slice_get texts.now at ≡ Some text.now }
{
    if at >= texts.len() {
        return false;
    }
    is_same(texts.get(at), text)
}

/// The place of the word, which is the last one or a new one.
fn keep_word(words: &mut Shelf, word: &[u8]) -> Result<u32, AllocError>
    ensures kept { IfOk result (λ at. slice_get words.new at ≡ Some word.now) }
    ensures extends { Extends words.old words.new }
{
    let last = words.len().saturating_sub(1);
    if is_at(words, last, word) {
        short(last)
    } else {
        add_word(words, word)
    }
}

/// Puts the two words behind the others, and answers the place of the first.
fn add_pair(words: &mut Shelf, first: &[u8], second: &[u8]) -> Result<u32, AllocError>
    ensures first { IfOk result (λ at. slice_get words.new at ≡ Some first.now) }
    ensures second { IfOk result (λ at. slice_get words.new (at + 1) ≡ Some second.now) }
    ensures extends { Extends words.old words.new }
{
    let at = add_word(words, first)?;
    words.push(second)?;
    Ok(at)
}

/// Puts the reason behind the others, and answers its place.
fn add_reason(reasons: &mut Vec<Reason>, why: &Reason) -> Result<u32, AllocError>
    ensures added { IfOk result (λ at. IsAdded at reasons.old.items why.now reasons.new.items) }
    ensures extends { Extends reasons.old.items reasons.new.items }
{
    let at = short(reasons.len())?;
    reasons.push(*why)?;
    Ok(at)
}

/// Whether the reason with this text stands at that place.
fn is_reason_at(reasons: &[Reason], at: usize, text: &[u8]) -> bool
    ensures { result ≡ true → slice_get reasons.now at ≡ Some text.now }
{
    if at >= reasons.len() {
        return false;
    }
    is_same(reason_of(reasons, at).as_bytes(), text)
}

/// The place of the reason, which is the last one or a new one.
fn keep_reason(reasons: &mut Vec<Reason>, why: &Reason) -> Result<u32, AllocError>
    ensures kept { IfOk result (λ at. slice_get reasons.new.items at ≡ Some why.now) }
    ensures extends { Extends reasons.old.items reasons.new.items }
{
    let last = reasons.len().saturating_sub(1);
    if is_reason_at(reasons, last, why.as_bytes()) {
        short(last)
    } else {
        add_reason(reasons, why)
    }
}

/// Whether the payload is that of the record that was accepted as this number.
fn is_record(records: &Shelf, no: MsgNo, payload: &[u8]) -> bool
    ensures { result ≡ true → IsRecord records.now no.0 payload.now }
{
    if no.0 == 0 {
        return false;
    }
    is_at(records, no.0 as usize - 1, payload)
}

/// The message packed. Where there is no room it is not kept.
fn keep_message(
    records: &Shelf,
    words: &mut Shelf,
    message: &Message,
) -> Result<KeptReply, AllocError>
    ensures kept { IfOk result (λ kept. (reasons : List (List ℕ)) → IsKept records.now words.new reasons kept (ReplyOf.Pass message.now)) }
    ensures extends { Extends words.old words.new }
{
    let flush = message.flush;
    let producer = message.producer;
    let batcher = message.batcher;
    let no = message.no;
    let key = message.key.as_slice();
    let payload = message.payload.as_slice();
    if is_record(records, no, payload) {
        let key = keep_word(words, key)?;
        Ok(KeptReply::Same {
            flush,
            producer,
            batcher,
            no,
            key,
        })
    } else {
        let key = add_pair(words, key, payload)?;
        Ok(KeptReply::Changed {
            flush,
            producer,
            batcher,
            no,
            key,
        })
    }
}

/// The failed message packed. Where there is no room it is not kept.
fn keep_failed(reasons: &mut Vec<Reason>, why: &Reason) -> Result<KeptReply, AllocError>
    ensures kept { IfOk result (λ kept. (records words : List (List ℕ)) → IsKept records words reasons.new.items kept (ReplyOf.Failed why.now)) }
    ensures extends { Extends reasons.old.items reasons.new.items }
{
    let why = keep_reason(reasons, why)?;
    Ok(KeptReply::Failed(why))
}

/// The raised message packed. Where there is no room it is not kept.
fn keep_raised(reasons: &mut Vec<Reason>, why: &Reason) -> Result<KeptReply, AllocError>
    ensures kept { IfOk result (λ kept. (records words : List (List ℕ)) → IsKept records words reasons.new.items kept (ReplyOf.Raised why.now)) }
    ensures extends { Extends reasons.old.items reasons.new.items }
{
    let why = keep_reason(reasons, why)?;
    Ok(KeptReply::Raised(why))
}

/// The reply packed. Where there is no room it is not kept.
fn keep_reply(
    records: &Shelf,
    words: &mut Shelf,
    reasons: &mut Vec<Reason>,
    reply: &Reply,
) -> Result<KeptReply, AllocError>
    ensures kept { IfOk result (λ kept. IsKept records.now words.new reasons.new.items kept reply.now) }
    ensures words { Extends words.old words.new }
    ensures reasons { Extends reasons.old.items reasons.new.items }
{
    match reply {
        Reply::Pass(message) => keep_message(records, words, message),
        Reply::Failed(why) => keep_failed(reasons, why),
        Reply::Raised(why) => keep_raised(reasons, why),
        Reply::Crashed => Ok(KeptReply::Crashed),
    }
}

/// The text at that place.
#[inline(always)]
fn text_of(texts: &Shelf, at: usize) -> &[u8]
    requires { at < length texts.now }
    ensures { result.now ≡ text_at texts.now at }
{
    texts.get(at)
}

/// The reason at that place.
fn reason_of(reasons: &[Reason], at: usize) -> &Reason
    requires { at < length reasons.now }
    ensures { result.now ≡ text_at reasons.now at }
{
    &reasons[at]
}

/// A kept reply, its texts lent.
#[inline(always)]
fn view_kept<'a>(
    records: &'a Shelf,
    words: &'a Shelf,
    reasons: &'a [Reason],
    kept: KeptReply,
) -> ReplyView<'a>
    requires { IsFound records.now words.now reasons.now kept }
    ensures { reply_seen result ≡ reply_of records.now words.now reasons.now kept }
{
    match kept {
        KeptReply::Same {
            flush,
            producer,
            batcher,
            no,
            key,
        } => ReplyView::Pass(MessageView {
            payload: text_of(records, no.0 as usize - 1),
            key: text_of(words, key as usize),
            no,
            producer,
            batcher,
            flush,
        }),
        KeptReply::Changed {
            flush,
            producer,
            batcher,
            no,
            key,
        } => ReplyView::Pass(MessageView {
            payload: text_of(words, key as usize + 1),
            key: text_of(words, key as usize),
            no,
            producer,
            batcher,
            flush,
        }),
        KeptReply::Failed(why) => ReplyView::Failed(reason_of(reasons, why as usize)),
        KeptReply::Raised(why) => ReplyView::Raised(reason_of(reasons, why as usize)),
        KeptReply::Crashed => ReplyView::Crashed,
    }
}

impl Kept {
    /// None. What it takes later comes from `alloc`.
    pub(crate) fn new(alloc: Global) -> Self
        ensures records { result.records ≡ [] }
        ensures replies { result.replies ≡ [] }
    {
        Kept {
            records: Shelf::new(alloc),
            words: Shelf::new(alloc),
            reasons: Vec::new(alloc),
            replies: Vec::new(alloc),
        }
    }

    /// How many records there are.
    pub(crate) fn record_count(&self) -> usize
        ensures { result ≡ length self.now.records }
    {
        self.records.len()
    }

    /// The record at that place from 0.
    #[inline(always)]
    pub(crate) fn record(&self, at: usize) -> &[u8]
        requires { at < length self.now.records }
        ensures { slice_get self.now.records at ≡ Some result.now }
    {
        self.records.get(at)
    }

    /// How many replies there are.
    pub(crate) fn reply_count(&self) -> usize
        ensures { result ≡ length self.now.replies }
    {
        self.replies.len()
    }

    /// The reply at that place from 0.
    #[inline(always)]
    pub(crate) fn reply(&self, at: usize) -> ReplyView<'_>
        requires { at < length self.now.replies }
        ensures { slice_get self.now.replies at ≡ Some (reply_seen result) }
    {
        let kept = self.replies[at];
        view_kept(&self.records, &self.words, &self.reasons, kept)
    }

    /// Puts the record behind the others. Where there is no room for it they stay as they were.
    fn add_record(&mut self, record: &Bytes) -> Result<(), AllocError>
        ensures added { OnOk result (self.new.records ≡ self.old.records ++ record.now ∷ []) }
        ensures extends { Extends self.old.records self.new.records }
        ensures replies { self.new.replies ≡ self.old.replies }
    {
        self.records.push(record.as_slice())
    }

    /// Puts the records behind the others, and answers the place of the first and how many they are. Where there is no room for
    /// all, it may have put some.
    pub(crate) fn add_records(&mut self, records: &[Bytes]) -> Result<(u32, u32), AllocError>
        ensures added { IfOk result (λ place. AreAdded place.0 place.1 self.old.records records.now self.new.records) }
        ensures extends { Extends self.old.records self.new.records }
        ensures replies { self.new.replies ≡ self.old.replies }
    {
        let first = short(self.record_count())?;
        let count = short(records.len())?;
        for record in records {
            self.add_record(record)?;
        }
        Ok((first, count))
    }

    /// Puts the reply behind the others, and answers its place. Where there is no room for it they stay as they were.
    pub(crate) fn add_reply(&mut self, reply: &Reply) -> Result<u32, AllocError>
        ensures added { IfOk result (λ at. IsAdded at self.old.replies reply.now self.new.replies) }
        ensures extends { Extends self.old.replies self.new.replies }
        ensures records { self.new.records ≡ self.old.records }
    {
        let at = short(self.replies.len())?;
        self.replies.reserve(1)?;
        let kept = keep_reply(&self.records, &mut self.words, &mut self.reasons, reply)?;
        self.replies.push_reserved(kept);
        Ok(at)
    }

    /// Puts the replies behind the others, and answers the place of the first and how many they are. Where there is no room for
    /// all, it may have put some.
    pub(crate) fn add_replies(&mut self, replies: &[Reply]) -> Result<(u32, u32), AllocError>
        ensures added { IfOk result (λ place. AreAdded place.0 place.1 self.old.replies replies.now self.new.replies) }
        ensures extends { Extends self.old.replies self.new.replies }
        ensures records { self.new.records ≡ self.old.records }
    {
        let first = short(self.reply_count())?;
        let count = short(replies.len())?;
        for reply in replies {
            self.add_reply(reply)?;
        }
        Ok((first, count))
    }
}
