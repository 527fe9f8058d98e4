//! A pipe: a pipeline with the bodies that are at home, its control source and its clock, as one value.
//!
//! Contracts see a pipe as a `PipeSeen`; what stands of its core and of the bodies at home is a fact of the type. `hold` is all that
//! a worker does while it has the pipe: it brings home what it brings, has the pipeline advance, lets time pass or begins the next
//! job; then the watch is shown the journal. `run_here` has one worker hold the pipe in a loop; where the topology has an idle limit, the loop returns. `run_workers` has
//! many workers hold it in turn, each in a thread.
#![tactic(auto)]

mod alone;
mod ends;
mod pipe;
mod rounds;
mod shown;
mod workers;

pub use alone::{run_here, run_to_end};
pub use ends::RunEnd;
pub use pipe::{Pipe, PipeParts};
pub use shown::Shown;
pub use workers::run_workers;
