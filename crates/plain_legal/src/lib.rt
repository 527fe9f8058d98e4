//! Whether a step may come next.
//!
//! A `Machine` is a list of steps with the lives, the tables and the works that stand for its history, which
//! `MachineStands` says. `allows` answers, for any step, just what `pipe_model` allows after that history: the row of
//! its kind, the step that the last one owes, and nothing but late answers behind a halt.
#![tactic(auto)]

mod answers;
mod lates;
mod legal;
mod machine;
mod owed;
mod rows;

pub use legal::allows;
pub use machine::Machine;
