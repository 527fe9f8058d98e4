//! The values of a topology file with the defaults, read from its tables. Reading never fails but for want of
//! memory: what is no value of the format counts as not given, since the walk of `config_table` refuses it before.
#![tactic(auto)]

pub mod read;
pub mod settings;
