//! What a pipeline does of its own accord, between the answer to one job and the next: also while jobs are out.
//!
//! `advance` reads the clock, reads one line of the control source and obeys or refuses it, and makes the steps of the
//! pipeline's own that come next: asks, dispatches, gathers, closes, restarts, the begin of the drain, the halt. It answers
//! the move that comes then: a job, a pause, the end, or that jobs are out. A stage that is restarted has its callbacks count
//! from 0 again. `pause` lets time pass where nothing else is left to do.
#![tactic(auto)]

mod advancing;
mod clocks;
mod resets;
mod steps;

pub use advancing::advance;
pub use clocks::pause;
pub use core_jobs::{begin_job, record_answer};
pub use core_moves::moves::Move;
