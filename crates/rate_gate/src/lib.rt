//! A gate before a source: so many records at most in each interval.
//!
//! A `Gate` counts what its share has left in the interval of the moment that it was told last. A `GatedSource` is the source
//! in it, whose bytes it gives up to the next LF at a time; with a gate it gives no record that its share does not have left.
//! Its clauses are those of every `ByteSource`. It takes no memory after it was made.
#![tactic(auto)]

mod front;
mod gate;
mod room;
mod source;

pub use gate::Gate;
pub use source::GatedSource;
