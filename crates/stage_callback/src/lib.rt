//! Callbacks: what a stage calls on its messages, held in a box.
//!
//! `Callback` is the trait, used as `Box<dyn Callback + Send>`. `StepsBox` and `LinesBox` are the built-in kinds: each
//! answer of theirs, and the count of messages that it leaves, is exactly the definition of the built-in handlers.
//! A user's own kind keeps the shapes of the answers, counts its calls, every answer that is no success and its resets, and may
//! say in its `law` which answers it gives to what.
#![tactic(auto)]

mod answers;
mod armable;
mod batches;
mod callback;
mod copies;
mod handler;
mod lines;
mod reset_count;
mod rules;
mod steps;

pub use answers::{FailedReply, Prepared, Said};
pub use armable::may_arm;
pub use callback::Callback;
pub use copies::{copy_message, copy_spec, unarmed};
pub use lines::LinesBox;
pub use pipe_types::message::BatchReply;
pub use reset_count::count_reset;
pub use steps::StepsBox;
