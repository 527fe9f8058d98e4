//! What is read off the tables of the core: which jobs are out, what is left to do, which asks are due, how much the
//! consumers of a stage ask for, and which fetch and take may begin; for every sound topology.
//!
//! Each reader has the condition that the core stands for its journal, and answers what the model says of that journal.
#![tactic(auto)]

pub mod asks;
pub mod causes;
pub mod jobs;
pub mod posts;
pub mod rests;
pub mod rooms;
pub mod rows;
