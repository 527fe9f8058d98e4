//! The turn: one value that workers hand about, of which no more is known than that it has a journal.
//!
//! Each worker has a `Seat`. `take` gives it the value where nobody has it, and `give` lets the others have it again.
//! A value that is taken stems from the first one, its journal begins with all that this seat had seen, and the job
//! that the seat went away with is still out. So does the value that comes back at the end, for all seats together.
#![tactic(auto)]

mod held;
mod rule;
mod seat;
mod turn;
mod view;

pub use held::Held;
pub use seat::Seat;
pub use turn::Turn;
