//! The words of the program, and what it writes of its own.
//!
//! `read_words` says which command the words are, if any. The other functions write the texts of refusals, and the line
//! of what `check` counted.
#![tactic(auto)]

pub mod refusals;
pub mod words;

pub use refusals::{
    counts_line, edge_line, feed_line, memory_line, stock_line, topology_line, usage_line,
};
pub use words::{AuditWords, Command, FlowWords, GenWords, RunWords, read_words};
