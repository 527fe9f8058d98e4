//! What a dispatch of a stage serves and sends after a list of steps, what it loses, and how much demand is open.
//!
//! Each function says its definition in `pipe_model`, of the steps' history and of the view that the tables show.
#![tactic(auto)]

mod casts;
mod demand;
mod dispatches;
mod partitions;

pub use demand::{open_demand, room, rooms};
pub use dispatches::{alone, lost_over, may_dispatch, sends_by};
pub use partitions::{batcher_of, first, partition};
