//! Worked journals of small pipelines, computed from the specification: it says of each what a reader expects.
//!
//! The checks stand in `proofs/`: whole journals with what they leave behind, and for each kind of step a journal
//! after which it is legal and journals after which one condition of it fails, so that it is refused. Each is a
//! closed equation that holds by computing both sides, so a definition that is changed to mean something else fails.
#![tactic(auto)]

/// The specification, passed on.
pub use pipe_model as model;
