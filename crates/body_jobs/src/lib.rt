//! The body of a post, and its jobs.
//!
//! A `Body` holds the source, the sink and the callback of a post, as many of these as it needs. `run_job` reads its
//! source, or runs a chunk, a child's message or a batch through its callback, and writes the text of a batch to its sink.
//! All memory of a job is taken before the first byte is written.
#![tactic(auto)]

mod batch;
mod body;
pub mod fetch;
mod work;
mod write;

pub use body::Body;
