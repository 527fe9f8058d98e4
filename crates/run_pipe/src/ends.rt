//! How a run ends.

/// How a run ended: every accepted message is acknowledged or lost, or there were too many restarts.
#[derive(Clone, Copy, PartialEq, Eq)]
pub enum RunEnd {
    Drained,
    Halted,
}
