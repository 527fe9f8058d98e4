//! The texts of a journal: a line for each step, the acknowledgements, and the report.
//!
//! Each function writes exactly the text that `specs/` defines of the journal and its places, in time linear in the
//! records but for the order of reasons. Only want of memory makes it fail.
#![tactic(auto)]

mod failures;
mod items;
pub mod lines;
pub mod memory;
mod places;
pub mod report;
pub mod sink;
pub mod status;
mod steps;
pub mod stream;
mod words;
