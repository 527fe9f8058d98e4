//! What stages took, what their handlers have counted, and what was handled on subscriptions, after a list of steps.
//!
//! `Works` keeps a row for each step that takes, counts or handles, the newest first. `WorksStand` says that these are
//! the works of a history, as `pipe_model` defines them; `works_after` keeps that by one more step.
#![tactic(auto)]

mod after;
mod children;
mod counts;
mod ledger;
mod messages;
mod takes;
mod works;

pub use after::{no_works, works_after};
pub use counts::count;
pub use ledger::{due, handled};
pub use messages::{batch_of, child_of, chunk_of};
pub use works::{CountRow, HandledRow, TakeRow, Works};
