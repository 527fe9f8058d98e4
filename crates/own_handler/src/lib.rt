//! Handlers: callbacks of one's own in plain methods.
//!
//! `Handler` is the trait: `message` alone has to be written, and no ghost member. `OwnBox` holds a handler and is a
//! `Callback` of the kind `own`, whatever the handler does: it keeps the spec, counts calls and answers, writes the text of a
//! batch, and makes an answer of a wrong shape a crash. `reason` makes a reason of a word that the check has seen. Who writes a
//! `Callback` by hand counts by `count_call` and `count_answer`, and answers batches by `judge_batch`.
#![tactic(auto)]

mod handler;
mod judge;
mod own_box;
mod pass_all;
mod reasons;

pub use handler::{BatchAnswer, Handler};
pub use judge::{is_all_successful, judge_batch};
pub use own_box::{OwnBox, count_answer, count_call};
pub use pass_all::PassAll;
pub use reasons::reason;
