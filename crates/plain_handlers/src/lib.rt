//! What handlers answer, told message by message, and whether a stage's answer may be its handler's.
//!
//! Each function says its definition in `pipe_types` or `pipe_model`. A message that a handler is told of is copied,
//! so nothing but memory is used up.
#![tactic(auto)]

mod ends;
mod replies;
mod rules;
mod same;

pub use ends::{batch_answer, count_after_batch, is_batch_handled};
pub use replies::{are_handled, counted, replies_until};
pub use rules::{copy_message, eval, remainder};
pub use same::{same_bytes, same_end, same_outcomes, same_replies};
