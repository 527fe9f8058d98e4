//! The children of a supervisor: a child runs the first message of the inbox, or again the message whose last run crashed.
//!
//! The end of a run acknowledges or loses the message, unless the message runs again.
#![tactic(auto)]

pub mod children;
pub mod endings;
mod ends;
pub mod named;
pub mod slots;
pub mod starts;

pub use children::{ChildWork, child_start};
pub use endings::child_end;
pub use named::child_start_in;
