//! The outside of a pipeline in memory: sources and sinks that play a script, a clock, and what stands under names.
//!
//! Each type tells its bytes, and its clauses say what every act of a script does and counts. The calls of
//! `MemEdges` fail exactly where their number stands in its list, or nothing stands under the name, or what
//! stands there is open.
#![tactic(auto)]

mod clock;
mod edges;
mod named;
mod opening;
mod sink;
mod source;

pub use clock::MemClock;
pub use edges::{CallList, MemEdges};
pub use sink::{MemSink, SinkAct, SinkScript};
pub use source::{MemSource, SourceAct, SourceScript};
