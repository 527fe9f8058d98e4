//! Boxes of callbacks, by kind.

use pipe_types::topology::Kind;

/// How many boxes of each kind a stock has.
#[derive(Clone, Copy, PartialEq, Eq)]
pub struct Boxes {
    pub steps: usize,
    pub lines: usize,
    pub own: usize,
}

/// A kind of which there are fewer boxes than posts that need one.
#[derive(Clone, Copy, PartialEq, Eq)]
pub struct Shortage {
    pub kind: Kind,
    pub need: usize,
    pub have: usize,
}
