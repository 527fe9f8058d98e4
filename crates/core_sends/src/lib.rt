//! What a dispatch sends, and the step that sends it.
//!
//! `plan` says what a dispatch of a stage would send, by the places of the units in its queue, for each of the three
//! dispatchers; `make_room` makes room for it in the inboxes of the consumers. `send_messages` appends the dispatch of a stage
//! of messages and takes no memory, so it may follow a step that owes it. `dispatch` is all of it in one call, of a stage of
//! messages and of a batcher, which sends closed batches and notes a leg for each subscription on which it sends one.
#![tactic(auto)]

mod alone;
mod batches;
mod counting;
mod deliveries;
mod leaving;
mod losing;
pub mod picks;
pub mod plans;
pub mod rooms;
pub mod sending;
