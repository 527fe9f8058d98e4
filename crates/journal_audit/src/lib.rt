//! A journal's text judged.
//!
//! An `Auditing` takes a text in pieces, line by line, and judges each step by a topology. It says that the text is that of a legal
//! journal, with what its steps come to, or names the first bad line and its cause: a line that the grammar refuses, or a step that
//! is not legal after the steps of the lines before. Between two pieces it keeps the line that has not ended yet, and no other text.
//! `audit` judges a text that is there as a whole. `specs/` defines the verdict by the reading of the text.
#![tactic(auto)]

pub mod laws;
mod lines;
mod pieces;
mod summary;
mod verdict;
mod whole;

pub use pieces::Auditing;
pub use verdict::{BadCause, Summary, Verdict};
pub use whole::audit;
