//! Which stages are live after a list of steps, and the generations of subscriptions.
//!
//! `Lives` is what the steps so far leave: who is dead and why, and what each restart renewed. `LivesStand` says that
//! it is the lives of a history, as `pipe_model` defines them. `lives_of` makes it of a list of steps.
#![tactic(auto)]

mod deaths;
mod kills;
mod lives;
mod past;

pub use deaths::{Death, Lives, Renewal, generation, is_live, reason};
pub use kills::killed_by;
pub use lives::{lives_after, lives_of};
pub use past::Past;
