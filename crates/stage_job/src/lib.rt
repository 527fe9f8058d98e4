//! What a worker does with callbacks: it runs a chunk of a processor through one, and counts those of a stock.
//!
//! `run_chunk` gives the replies to a chunk. Those of a built-in kind, and the count of messages that they leave, are
//! exactly the definition of the built-in handlers. Those of a user's own kind keep their shape, the callback counted
//! a call for each that passes and a bad answer where one does not, and where it tells its answers the replies are
//! made of these. `run_message` does the same for a message alone, and `reason_for` gives the reason of one that failed.
//! `boxes_of` counts the boxes of a kind in a stock.
#![tactic(auto)]

mod calm;
mod chunk;
mod stock;

pub use calm::never_crashes;
pub use chunk::{reason_for, run_chunk, run_message};
pub use stock::boxes_of;
