//! The topology of `flow SOURCE PREFIX`: one pull producer named `source` and one processor whose only rule is
//! `require PREFIX`. It is sound, whatever the two words are, and it is the topology of a file with the same content.
#![tactic(auto)]

pub mod flow;
pub mod laws;

pub use flow::flow_topology;
