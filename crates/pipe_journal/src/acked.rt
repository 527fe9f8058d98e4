//! What a journal notes of a message that a step acknowledged.

use pipe_types::numbers::{MsgNo, StageNo};

/// An acknowledged message: its number, the producer that accepted it, whether it succeeded, and the place of the step that
/// acknowledged it, from 0. It takes 16 bytes.
#[derive(Clone, Copy)]
pub struct AckRow {
    pub no: MsgNo,
    pub producer: StageNo,
    pub successful: bool,
    pub at: u64,
}
