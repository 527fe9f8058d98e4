//! A journal's text, read back.
//!
//! `specs/` names the faults of a text, and `reading_laws` says what a text spells. `read_step` reads one line, `read_steps` a whole
//! text, line by line and with nothing kept but the journal: each answers what the definition says, but for want of memory. So
//! the text of each journal that is legal for the topology is read back as that journal, and what is read is the text of what is
//! answered.
#![tactic(auto)]

mod copies;
mod fault;
mod held;
mod known;
pub mod laws;
mod lines;
mod progress;
mod step;
mod steps;

pub use copies::copy_topology;
pub use fault::{JournalFault, JournalRefusal};
pub use lines::{Cut, first_line, is_header};
pub use plain_run::PlainRun;
pub use step::{LineRead, read_step};
pub use steps::{begin, read_steps};
