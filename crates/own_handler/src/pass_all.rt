//! The handler that passes all.

use crate::Handler;
use pipe_types::message::{Message, Reply};
use std::alloc::AllocError;

/// Passes each message on as it is, and takes each batch.
#[derive(Drop)]
pub struct PassAll;

impl Handler for PassAll {
    fn message(&mut self, message: Message) -> Result<Reply, AllocError> {
        Ok(Reply::Pass(message))
    }
}
