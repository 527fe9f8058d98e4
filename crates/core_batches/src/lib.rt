//! The calls of batchers and batch processors, for every sound topology.
//!
//! Each call has the condition that the core stands for its journal and that its step is legal. It appends just that
//! step and keeps that the core stands; where memory is wanting the journal is as before. The answer of a batch takes no
//! memory, since the take made the room for it.
#![tactic(auto)]

mod batches;
pub mod closes;
pub mod gathers;
mod rows;
mod settles;
pub mod writes;
