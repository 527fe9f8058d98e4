//! Acknowledgements to producers, and the legs of batches that were sent.
//!
//! `group` makes of the verdicts on messages one acknowledgement for each producer. `Legs` keeps how the legs of each
//! batch that was sent ended, and says at its last leg how its messages end: lost where a leg was lost, by the least such
//! leg; else each failed as the least leg that failed it says; else successful. `settle_leg` takes no memory.
#![tactic(auto)]

mod legs;
mod verdicts;

pub use legs::{LegEnd, Legs, Settled};
pub use verdicts::{Ack, AckList, Verdict, group};
