//! The system's files, standard streams, connections and clock, as a run takes its outside.
//!
//! `RealEdges` opens sources and sinks by name, each file once, counts each failure before it answers it, and keeps
//! what is given back until it is dropped. `take_closed_streams` comes first in a program: what is opened later then
//! never stands where a standard stream is looked for. `RealClock::woken_by` makes the clock whose pauses end when something arrives. No object tells its bytes: what a file or a connection holds, and that a peer gets anything, is
//! not claimed. `pipeline_prog` passes them to its run:
//! `run_program(rt, alloc, &words, stock, &mut edges, clock, &mut out, &mut err)`.
#![tactic(auto)]

mod arrivals;
mod clock;
mod edges;
mod names;
mod opened;
mod output;
mod source;
mod streams;
mod waits;

pub use clock::RealClock;
pub use edges::{GivenBack, RealEdges};
pub use names::{Address, SinkName, SourceName};
pub use opened::{Identity, OpenFiles};
pub use output::{RealOut, Writer};
pub use source::{Reader, RealSource, read_end};
pub use streams::take_closed_streams;
pub use waits::Patience;
