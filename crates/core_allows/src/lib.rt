//! Whether a step may come next, for every sound topology.
//!
//! Each function has the condition that the core stands for its journal, and answers the model's test of one kind of step.
#![tactic(auto)]

pub mod allowing;
pub mod answers;
pub mod asks;
pub mod children;
pub mod closes;
pub mod dispatches;
pub mod dones;
pub mod gathers;
pub mod jobs;
pub mod lives;
pub mod queues;
mod rows;
pub mod sources;
pub mod turns;
