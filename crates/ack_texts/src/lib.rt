//! The text of the acknowledgements of a run, from its journal's log of acknowledged messages.
//!
//! `put_acks` writes exactly the text that the specification of `journal_texts` defines: a line for each acknowledgement, in the
//! order of the steps and then of the producers. It goes along the log, a group of rows of one step after another. `put_group`
//! writes the lines of one group, so whoever keeps a place in the log (`rows_from`, `group_len`) writes what is new at the cost of
//! that alone. The numbers of a line ascend, whatever the order of the rows is; they are found by windows of numbers, so no memory
//! is taken. `write_acks` writes the text to a sink of bytes in pieces.
#![tactic(auto)]

mod groups;
mod lines;
mod sides;
mod windows;
mod words;

pub use groups::{group_len, put_acks, rows_from, write_acks};
pub use lines::{group_text, put_group};
