//! Where a batch leaves its messages, and what steps do to its legs.
//!
//! Each function says its definition in `pipe_model`, of the batches that the rows of plain tables show.
#![tactic(auto)]

mod legs;
mod settled;

pub use legs::{LegChange, batch_killed, batch_on_legs, batch_sent, copy_batch_place};
pub use settled::{by_batch, is_settled, place_in_batch};
