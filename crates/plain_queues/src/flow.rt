//! What flows before a step.

use crate::tables::Tables;
use plain_lives::Past;
use std::alloc::Global;

/// A topology, the steps so far and their lives, with the tables that show what flows, and the allocator that answers are made with.
#[derive(Clone, Copy)]
pub struct Flow<'a> {
    pub alloc: Global,
    pub past: Past<'a>,
    pub tables: &'a Tables,
}
