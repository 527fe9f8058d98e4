//! What the values of a topology file say together: names that stand twice, routes to no batcher, missing or too many
//! stages, dispatchers of another word, and batchers that no message reaches. The first fault of the lowest number counts.
#![tactic(auto)]

pub mod groups;
pub mod judge;
pub mod names;
pub mod routes;
