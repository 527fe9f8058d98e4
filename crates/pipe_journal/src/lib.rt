//! The journal of a run: the list of its steps, which only grows.
//!
//! Contracts see a `Journal` as its `steps`, newest first, and as its `spare`, the number of further steps that take no memory. A push
//! adds one step in front of the history, and where it fails the step comes back and the history is as it was.
//!
//! An entry has a step's kind and numbers, in 16 bytes. Records and replies stand packed beside the entries, and a reply that passes its
//! message's record on unchanged has no bytes of its own. A late answer, outcomes that are not all successes, and whatever there is no
//! memory to pack are kept as they came. A reader lends all of it, by the place of a step and a place there; only `get` copies.
//!
//! Beside its steps a journal keeps a log: a row for each message that a step acknowledged, which whoever writes the steps notes, and
//! `IsLog` says of a topology which rows these must be. So what is new in the journal is acknowledged at the cost of that alone.
#![tactic(auto)]

mod acked;
mod copies;
mod entry;
pub mod items;
pub mod journal;
mod kept;
mod shelf;
mod store;
pub mod view;
mod watch;

pub use acked::AckRow;
pub use items::{MessageView, Records, Replies, ReplyView};
pub use journal::Journal;
pub use kept::Kept;
pub use view::{AnswerView, EndView, StepView};
pub use watch::{NoWatch, Watch, WatchEnd};
