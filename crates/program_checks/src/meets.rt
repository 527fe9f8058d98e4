//! A handler that waits for another call.

use own_handler::{BatchAnswer, Handler, reason};
use pipe_types::message::{Batch, Message, Reply};
use std::alloc::{AllocError, Global};
use std::sync::Arc;
use std::sync::atomic::{AtomicU64, Ordering};
use std::thread::yield_now;

/// The calls of all handlers that share a count are numbered from 1, as they begin, and make groups of so many. Each looks so
/// many times, and gives other threads way after each look, whether all of its group have begun: if so it passes its message,
/// and else it fails it for the reason `alone`. It crashes at each batch.
#[derive(Drop)]
pub struct Meets {
    begun: Arc<AtomicU64, Global>,
    group: u64,
    looks: u64,
}

impl Meets {
    /// A handler with the count that it shares, the size of a group, where 0 counts as 1, and the number of its looks. It takes
    /// no memory.
    pub fn new(begun: Arc<AtomicU64, Global>, group: u64, looks: u64) -> Meets {
        Meets {
            begun,
            group,
            looks,
        }
    }

    /// Begins a call, and says whether all calls of its group have begun.
    fn begin(&self) -> bool {
        let before = self.begun.fetch_add(1, Ordering::SeqCst);
        let group = self.group.max(1);
        let wanted = before.saturating_add(group - before % group);
        for _ in 0..self.looks {
            if self.begun.load(Ordering::SeqCst) >= wanted {
                return true;
            }
            yield_now();
        }
        false
    }
}

impl Handler for Meets {
    fn message(&mut self, message: Message) -> Result<Reply, AllocError> {
        if self.begin() {
            return Ok(Reply::Pass(message));
        }
        Ok(Reply::Failed(reason(b"alone")))
    }

    fn batch(&mut self, _batch: &Batch) -> Result<BatchAnswer, AllocError> {
        Ok(BatchAnswer::Crashed)
    }
}
