//! The top call: from the words of the program to its texts and its status.
//!
//! `run_program` reads the words and the topology file, counts the stock of callbacks, opens sources and sinks, or generates
//! records in place of what sources give, runs, gives back what it opened, and writes the report or why there is none. Its contract says that the journal of the run is legal and keeps
//! every claim, that the records are the sources' lines, the sinks hold its texts and the output is its report, and when each
//! status comes.
#![tactic(auto)]

mod audit;
mod feeds;
mod file;
mod program;
mod run;

pub use program::{RunEnd, run_program};
