//! The restart of a stage, for every sound topology and every legal journal.
//!
//! `restart` appends just that step and keeps that the core stands. The stage lives again in its next incarnation, and
//! each pair of it with a stage that lives has its next subscription, on which nothing was asked, sent or handled.
#![tactic(auto)]

mod renewing;
mod restarting;

pub use restarting::restart;
