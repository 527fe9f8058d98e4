//! The core of a pipeline: its topology, its journal, and fields that are what the journal comes to.
//!
//! `Stands` says that the topology is sound, that the journal is legal and owes no step, and that each field is what the
//! journal comes to. A core without a step has it, and every call of the crates above has it as a condition and keeps it.
#![tactic(auto)]

pub mod contents;
pub mod limits;
mod new;
mod places;
mod readers;
pub mod settles;
pub mod state;
mod subscribing;
mod tables;

pub use state::{Core, MOST_DUE};
