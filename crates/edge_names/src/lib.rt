//! What a run opens by name, in stage order, into its bodies, and gives back. Where the topology has a rate, each producer's
//! source stands in a gate with its share.
//!
//! The control source is no stage's, and is the first. A producer comes to its source by the supply of the run (`ByName`: it
//! opens it, or merges the sources of several names, which it opens in order), and a batch processor opens its sink, if it has
//! one, in the order of the stages, and they stand in the bodies of these. `open_or_give_back` makes all these calls, or gives
//! back what was opened before a call failed; `give_back` gives all of it back under its names, in the same order. Contracts
//! see edges, sources and sinks as plain data.
#![tactic(auto)]

mod back;
mod control;
mod gates;
mod lines;
mod merging;
mod names;
mod opening;
mod seen;
mod supply;

pub use back::give_back;
pub use opening::{Unopened, open_or_give_back};
pub use seen::{SeenEdges, SeenSink, SeenSource};
pub use supply::{ByName, Supply};
