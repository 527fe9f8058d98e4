//! The texts of rules, as `steps` of a topology file has them. A text is read into a form that borrows from it, and
//! from there into a rule, in which a batcher has its number in place of its name.
#![tactic(auto)]

pub mod form;
pub mod sources;
pub mod words;
