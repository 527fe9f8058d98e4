//! The tables of a topology file: for each key its type, its range and its default. The walk finds the first fault
//! of a table that was read from TOML, and the settings are its values with the defaults.
#![tactic(auto)]

pub mod fault;
pub mod format;
pub mod rows;
pub mod shape;
pub mod value;
pub mod walk;
