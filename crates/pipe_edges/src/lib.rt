//! The outside of a pipeline: where bytes come from and go to, the clock, what is opened by name, and lines.
//!
//! A `LineSource` hands out the lines of any `ByteSource` in order, in time linear in the bytes, and names why it
//! stops; `put_all` writes a text to any `ByteSink` and says how many bytes went out. Their clauses count faults and
//! waits of every source and sink, and speak of the bytes of those that tell them.
#![tactic(auto)]

mod clock;
mod edges;
mod held;
mod lines;
mod reading;
mod sink;
mod source;

pub use clock::Clock;
pub use edges::{EdgeEnd, EdgeKind, Edges, MAX_FILE_BYTES};
pub use lines::LineSource;
pub use reading::{Fetched, LineEnd};
pub use sink::{ByteSink, PutEnd, WriteEnd, put_all};
pub use source::{ByteSource, ReadEnd};
