//! What callbacks answer, beside a reply to a message and to a batch.

use pipe_types::message::{BatchReply, Reply};
use pipe_types::reason::Reason;

/// What a callback answers when it is shown a chunk, before the messages one by one.
#[derive(Clone, Copy, PartialEq, Eq)]
pub enum Prepared {
    Ready,
    /// Every message of the chunk fails with this reason.
    Raised(Reason),
    /// The stage is killed.
    Crashed,
}

/// What a callback answers when it is shown a message that failed.
#[derive(Clone, Copy, PartialEq, Eq)]
pub enum FailedReply {
    Keep,
    Replace(Reason),
    /// The old reason stays.
    Raised,
}

/// One answer of a callback, as a callback that tells its answers lists them.
#[derive(Drop)]
pub enum Said {
    Prepared(Prepared),
    Message(Reply),
    Batch(BatchReply),
    Failed(FailedReply),
}
