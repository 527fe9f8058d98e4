//! Which steps may come next, for each kind of step that no handler answers.
//!
//! Each function says its row of `pipe_model`'s table of legal steps, of the history that a list of steps has. It
//! looks at the lives and at the tables that stand for this history.
#![tactic(auto)]

mod children;
mod closes;
mod controls;
mod fetches;
mod gathers;
mod takes;

pub use children::may_start;
pub use closes::may_close;
pub use controls::{may_drain, may_halt, may_kill, may_refuse, may_renew, may_tick};
pub use fetches::{are_records, may_accept, may_answer_quiet, may_end, may_fetch};
pub use gathers::may_gather;
pub use takes::may_take;
