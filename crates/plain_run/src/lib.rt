//! A journal judged step by step.
//!
//! A `PlainRun` has a topology and the steps so far. `step` appends the step that it is given where that is legal, and says
//! whether it is; `chunk` says which message a job that is out works on at a place; `places`, `is_drained` and `has_halted` say
//! what the steps come to; `settled` says which messages the last step acknowledged. A step costs what the run spent on it.
#![tactic(auto)]

mod accepts;
mod after;
mod answers;
mod appends;
mod batches;
mod children;
mod clocks;
mod flows;
mod folds;
mod given;
mod jobs;
mod judges;
mod run;
mod settled;
mod standing;
mod takes;
mod works;

pub use folds::are_legal;
pub use run::PlainRun;
