//! What a journal has to do with the pace of a source: what was given since the interval began is what the journal has of it.
//!
//! The laws go from one step to the next: the start, a step that brings nothing, the moment that is told behind a fetch, and each
//! answer to a fetch. The laws of bodies cite them. There is no code.
#![tactic(auto)]
