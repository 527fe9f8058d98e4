//! Jobs and their answers.

use pipe_types::bytes::BytesList;
use pipe_types::message::{Batch, BatchEnd, Message, MessageList, Reply, ReplyList};
use pipe_types::numbers::Post;
use pipe_types::step::SourceHow;

/// What a post is to do.
#[derive(Drop)]
pub enum Work {
    /// To read at most so many records.
    Fetch(u32),
    /// To handle these messages one by one.
    Chunk(MessageList),
    /// To handle this batch, and to write its text.
    Batch(Batch),
    /// To handle this message alone, from a count of 0.
    Child(Message),
}

/// What the work of a post came to.
#[derive(Drop)]
pub enum Outcome {
    Records(BytesList),
    /// The source has nothing ready.
    NotYet,
    Ended(SourceHow),
    Replies(ReplyList),
    /// So many bytes were written, and the batch ended so.
    Wrote(u64, BatchEnd),
    Reply(Reply),
}

/// A job of a post, which is out from this incarnation of its stage.
#[derive(Drop)]
pub struct Job {
    pub post: Post,
    pub incarnation: u32,
    pub work: Work,
}

/// The answer to a job.
#[derive(Drop)]
pub struct Answer {
    pub post: Post,
    pub incarnation: u32,
    pub outcome: Outcome,
}
