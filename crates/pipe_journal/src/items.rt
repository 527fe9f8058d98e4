//! The records and the replies of a step, lent.

ghost use Rattle.std.specs.Prelude.{◌≡◌, ◌<◌, Some, length, slice_get, ◌-◌, min, option_map, option_copied};
ghost use Rattle.pipe_journal.specs.Items.{reply_seen, records_seen, replies_seen};

use crate::kept::Kept;
use pipe_types::bytes::Bytes;
use pipe_types::message::Reply;
use pipe_types::numbers::{MsgNo, StageNo};
use pipe_types::reason::Reason;

/// A message, its texts lent.
#[derive(Clone, Copy)]
pub struct MessageView<'a> {
    pub payload: &'a [u8],
    pub key: &'a [u8],
    pub no: MsgNo,
    pub producer: StageNo,
    pub batcher: u16,
    pub flush: bool,
}

/// A reply, its message or its reason lent.
#[derive(Clone, Copy)]
pub enum ReplyView<'a> {
    Pass(MessageView<'a>),
    Failed(&'a Reason),
    Raised(&'a Reason),
    Crashed,
}

/// The records of a step, lent.
#[derive(Clone, Copy)]
pub enum Records<'a> {
    /// As a step has them.
    Listed(&'a [Bytes]),
    /// So many kept ones from a place on, which a journal lends.
    Packed(&'a Kept, u32, u32),
}

/// The replies of a step, lent.
#[derive(Clone, Copy)]
pub enum Replies<'a> {
    /// As a step has them.
    Listed(&'a [Reply]),
    /// So many kept ones from a place on, which a journal lends.
    Packed(&'a Kept, u32, u32),
    One(ReplyView<'a>),
}

impl<'a> ReplyView<'a> {
    /// A view of this reply.
    pub fn of(reply: &'a Reply) -> Self
        ensures { reply_seen result ≡ reply.now }
    {
        match reply {
            Reply::Pass(message) => ReplyView::Pass(MessageView {
                payload: message.payload.as_slice(),
                key: message.key.as_slice(),
                no: message.no,
                producer: message.producer,
                batcher: message.batcher,
                flush: message.flush,
            }),
            Reply::Failed(why) => ReplyView::Failed(why),
            Reply::Raised(why) => ReplyView::Raised(why),
            Reply::Crashed => ReplyView::Crashed,
        }
    }
}

/// How many of so many from a place on there are, where there are `total`.
#[inline(always)]
fn among(total: usize, first: u32, count: u32) -> usize
    ensures { result ≡ min count (total - first) }
{
    let first = first as usize;
    let count = count as usize;
    if first >= total {
        0
    } else {
        count.min(total - first)
    }
}

impl<'a> Records<'a> {
    /// How many they are.
    #[inline(always)]
    pub fn len(self) -> usize
        ensures { result ≡ length (records_seen self.entry) }
    {
        match self {
            Records::Listed(records) => records.len(),
            Records::Packed(kept, first, count) => among(kept.record_count(), first, count),
        }
    }

    /// The record at that place from 0.
    #[inline(always)]
    pub fn item(self, at: usize) -> &'a [u8]
        requires { at < length (records_seen self) }
        ensures { slice_get (records_seen self.entry) at ≡ Some result.now }
    {
        match self {
            Records::Listed(records) => records[at].as_slice(),
            Records::Packed(kept, first, _) => kept.record(first as usize + at),
        }
    }

    /// The record at that place from 0, where there is one.
    #[inline(always)]
    pub fn get(self, at: usize) -> Option<&'a [u8]>
        ensures { option_copied result ≡ slice_get (records_seen self.entry) at }
    {
        if at < self.len() {
            Some(self.item(at))
        } else {
            None
        }
    }
}

impl<'a> Replies<'a> {
    /// How many they are.
    #[inline(always)]
    pub fn len(self) -> usize
        ensures { result ≡ length (replies_seen self.entry) }
    {
        match self {
            Replies::Listed(replies) => replies.len(),
            Replies::Packed(kept, first, count) => among(kept.reply_count(), first, count),
            Replies::One(_) => 1,
        }
    }

    /// The reply at that place from 0.
    #[inline(always)]
    pub fn item(self, at: usize) -> ReplyView<'a>
        requires { at < length (replies_seen self) }
        ensures { slice_get (replies_seen self.entry) at ≡ Some (reply_seen result) }
    {
        match self {
            Replies::Listed(replies) => ReplyView::of(&replies[at]),
            Replies::Packed(kept, first, _) => kept.reply(first as usize + at),
            Replies::One(reply) => reply,
        }
    }

    /// The reply at that place from 0, where there is one.
    #[inline(always)]
    pub fn get(self, at: usize) -> Option<ReplyView<'a>>
        ensures { option_map reply_seen result ≡ slice_get (replies_seen self.entry) at }
    {
        if at < self.len() {
            Some(self.item(at))
        } else {
            None
        }
    }
}
