//! A handler that crashes.

use own_handler::{BatchAnswer, Handler};
use pipe_types::message::{Batch, Message, Reply};
use std::alloc::AllocError;

/// Passes each message, and crashes at the third one since its stage was started or restarted. It crashes at each batch.
#[derive(Drop)]
pub struct ThirdCrashes {
    seen: u64,
}

impl ThirdCrashes {
    /// A handler that has seen nothing yet. It takes no memory.
    pub fn new() -> ThirdCrashes {
        ThirdCrashes { seen: 0 }
    }
}

impl Handler for ThirdCrashes {
    fn message(&mut self, message: Message) -> Result<Reply, AllocError> {
        self.seen = self.seen.saturating_add(1);
        if self.seen == 3 {
            return Ok(Reply::Crashed);
        }
        Ok(Reply::Pass(message))
    }

    fn batch(&mut self, _batch: &Batch) -> Result<BatchAnswer, AllocError> {
        Ok(BatchAnswer::Crashed)
    }

    fn reset(&mut self) {
        self.seen = 0;
    }
}
