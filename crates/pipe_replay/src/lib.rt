//! The slow machine: which lists of steps are legal, and the state that a legal one leaves.
//!
//! `replay_plain` goes over any list of steps for any topology. It answers none exactly where `pipe_model` does not
//! call the list legal, and else the state, row by row, as `IsStateOf` says. Of a sound topology the claims
//! of a legal journal hold besides (`KeepsClaims`). Nothing is kept from step to step but tables, so a call takes time in at least
//! the square of the length of the list.
#![tactic(auto)]

mod ledgers;
mod lives;
mod places;
mod replay;
mod settled;
mod state;

pub use replay::replay_plain;
