//! Reading a topology file. `read_topology` answers the topology that the bytes name, or the first fault of the
//! lowest number, by the definition `topology_of_file` of specs/File.antt; want of memory may come at any place.
//! `upgrade` gives the text of an accepted file as version 2.
//! The topology of settings that fit the format and that no fault names is sound: the law of `laws`.
#![tactic(auto)]

mod flat;
pub mod laws;
pub mod read;
pub mod version2;

pub use config_table::fault::{ConfigFault, fault_number};
pub use read::read_topology;
pub use version2::{UpgradeFault, upgrade};
