//! Callbacks of one's own, and a call of the program with them over objects in memory.
//!
//! `ThirdCrashes` is a handler that passes each message and crashes at its third one. `PlainLines` writes nothing but printable ASCII, as its law
//! says, and `run_plain` shows what that makes of a whole run. `run_with` hands callbacks to `run_program`, with the
//! words `run t --workers N --steps --acks`, a topology file and lines, and its contract says what comes of it. `run_program`,
//! that of `pipe_top`, is handed on to programs that take this crate. `run_lines` is for tests of one's own: it runs a topology
//! over lines, and answers the texts of the run. docs/OWN-PROGRAM.md shows it.
#![tactic(auto)]

mod call;
mod lines;
mod plain;
mod third;

pub use call::{Came, run_plain, run_with};
pub use lines::{LinesEnd, run_lines};
pub use pipe_top::run_program;
pub use plain::PlainLines;
pub use third::ThirdCrashes;
