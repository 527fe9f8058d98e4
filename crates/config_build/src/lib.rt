//! The topology that the values of a topology file give: producers in file order, then processors by index or the
//! supervisor, then batchers in file order, then batch processors by batcher and index, numbered from 1.
#![tactic(auto)]

pub mod build;
pub mod limit;
pub mod stage;
