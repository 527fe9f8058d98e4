//! Workers over a value that they take in turn, each in a thread of its own.
//!
//! A worker takes the value, brings home what its job came to, begins the next job and gives the value back; then it does the job
//! while others have the value. Where no job can be begun it sleeps until there is news, or for some milliseconds, more of them the
//! longer nothing was new, behind which it takes the value again, so that the clock is read. `run_shifts` has as many of them work
//! until the value says that there is nothing to do any more. A worker that
//! goes away wakes another where there is a job for it, and where little is left to do, only as long as others came before it was back. What they need of it is `Shift`, and no more is known of it.
#![tactic(auto)]

mod habit;
mod shift;
mod threads;
mod worker;

pub use shift::{Ahead, Round, Shift};
pub use threads::run_shifts;
pub use worker::work;
