//! Answers that come late, from a stage that was killed since, and answers of handlers that crashed.
//!
//! Nothing that was out is settled by them. Records that come late are accepted and lost in that one step, as the stage
//! was.
#![tactic(auto)]

pub mod crashes;
pub mod lates;
mod losses;

pub use crashes::{answer_crash, write_crash};
pub use lates::late;
