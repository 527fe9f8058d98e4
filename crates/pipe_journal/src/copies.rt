//! Copies of records, replies and outcomes.

ghost use Rattle.std.specs.Prelude.{◌≡◌, IfOk};
ghost use Rattle.pipe_journal.specs.Items.{message_seen, reply_seen, records_seen, replies_seen};

use crate::items::{MessageView, Records, Replies, ReplyView};
use pipe_types::bytes::{Bytes, BytesList};
use pipe_types::message::{Message, Outcome, OutcomeList, Reply, ReplyList};
use std::alloc::{AllocError, Global};

fn copy_bytes(alloc: Global, bytes: &[u8]) -> Result<Bytes, AllocError>
    ensures { IfOk result (λ copied. copied ≡ bytes.now) }
{
    Ok(Bytes::from_vec(Vec::from_slice(alloc, bytes)?))
}

pub(crate) fn copy_records(alloc: Global, records: Records<'_>) -> Result<BytesList, AllocError>
    ensures { IfOk result (λ copied. copied ≡ records_seen records.entry) }
{
    let mut copied = Vec::with_capacity(alloc, records.len())?;
    for at in 0..records.len() {
        copied.push(copy_bytes(alloc, records.item(at))?)?;
    }
    Ok(BytesList::from_vec(copied))
}

fn copy_message(alloc: Global, message: MessageView<'_>) -> Result<Message, AllocError>
    ensures { IfOk result (λ copied. copied ≡ message_seen message.entry) }
{
    Ok(Message {
        no: message.no,
        producer: message.producer,
        payload: copy_bytes(alloc, message.payload)?,
        batcher: message.batcher,
        key: copy_bytes(alloc, message.key)?,
        flush: message.flush,
    })
}

pub(crate) fn copy_reply(alloc: Global, reply: ReplyView<'_>) -> Result<Reply, AllocError>
    ensures { IfOk result (λ copied. copied ≡ reply_seen reply.entry) }
{
    Ok(match reply {
        ReplyView::Pass(message) => Reply::Pass(copy_message(alloc, message)?),
        ReplyView::Failed(why) => Reply::Failed(*why),
        ReplyView::Raised(why) => Reply::Raised(*why),
        ReplyView::Crashed => Reply::Crashed,
    })
}

pub(crate) fn copy_replies(alloc: Global, replies: Replies<'_>) -> Result<ReplyList, AllocError>
    ensures { IfOk result (λ copied. copied ≡ replies_seen replies.entry) }
{
    let mut copied = Vec::with_capacity(alloc, replies.len())?;
    for at in 0..replies.len() {
        copied.push(copy_reply(alloc, replies.item(at))?)?;
    }
    Ok(ReplyList::from_vec(copied))
}

pub(crate) fn copy_outcomes(alloc: Global, outcomes: &[Outcome]) -> Result<OutcomeList, AllocError>
    ensures { IfOk result (λ copied. copied ≡ outcomes.now) }
{
    Ok(OutcomeList::from_vec(Vec::from_slice(alloc, outcomes)?))
}
