//! Fetches and accepts: what a producer may bring, and how its records become messages.
//!
//! A fetch may bring no more than the record limit leaves, less what other fetches that are out may bring, and for a pull
//! producer no more than its subscribers asked for. An accept makes the records messages that wait in the producer:
//! `accept` appends it with the dispatch that it owes, and `enroll` alone, into room that was made before.
#![tactic(auto)]

pub mod accepts;
pub mod calls;
pub mod fetches;
mod limits;
mod rooms;
