//! The lines that a run reads of one source, from when the source was opened.
//!
//! `read_lines` is the fetch of a line source with what a run keeps of it: the records of all fetches so far are the
//! first lines of the source's bytes; all of them, with none too long, once it ended; and those before the first
//! line that is too long, where it ended so. Clauses on bytes hold where the source tells them.
#![tactic(auto)]

mod reading;

pub use reading::read_lines;
