//! What the table keeps of each seat, and what lies in its slot.

use pipe_types::numbers::Post;
use pipe_types::step::Step;
use std::collections::LinkedList;

/// What a seat knows. No value of it is made.
pub struct View<O> {
    pub parts: u32,
    /// None of a seat that was joined into another.
    pub origin: Option<O>,
    /// The journal of the value that the seat had last, newest step first.
    pub seen: LinkedList<Step>,
    /// What a seat that was joined in had seen, until `join` returns.
    pub told: LinkedList<Step>,
    /// The posts that were away from the value as the seat took it last.
    pub away: LinkedList<Post>,
    pub job: Option<Post>,
    /// Whether the seat holds the value, whose journal is then what it has seen.
    pub holds: bool,
    pub misses: u64,
}

/// The value, with the job that its giver went away to do.
pub struct Handed<V> {
    pub value: V,
    pub job: Option<Post>,
}
