//! The lines of a journal's text, read back.
//!
//! `specs/` says what a line spells: each field and each line has one reading, which is a step or the first fault. `read_line`
//! answers that reading, but for want of memory. `laws` says that the reading and the printer of `journal_texts` agree. Which
//! message a passed reply belongs to is not written, so the caller tells it, by `JobMessages`.
#![tactic(auto)]

mod fault;
mod fields;
mod items;
mod jobs;
mod kinds;
mod late;
pub mod laws;
mod lines;
mod replies;
mod words;

pub use fault::{Fault, ReadError};
pub use jobs::JobMessages;
pub use lines::read_line;
