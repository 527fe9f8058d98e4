//! What kind of step came last.

use pipe_types::numbers::StageNo;

/// What the last step may owe.
#[derive(Clone, Copy)]
pub enum After {
    /// It owes nothing.
    Free,
    /// The producer brought records, and owes a dispatch where it may make one.
    Accept(StageNo),
    /// A handler of the stage crashed, which owes the kill of the stage.
    Crash(StageNo),
}
