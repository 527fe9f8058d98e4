//! The partition dispatcher: each waiting unit has a partition, and the units of one partition go in order to the
//! subscription of that partition, as many as it asked for. A unit of a partition without demand stays and holds back
//! no other. `partition_of` gives the partition of a byte string.
//!
//! It promises exactly the sends of the partition rule, by unit and then by subscription, or want of memory.
#![tactic(auto)]

mod left;

ghost use Rattle.std.specs.Prelude.{◌≡◌, ◌<◌, ◌≤◌, ◌^◌, IfOk, length};
ghost use Rattle.pipe_types.specs.{Dispatchers.{ByPartition, sends_by_place, partition_of as partition_of_bytes}, Rooms.{AreAscending, PartsDiffer}};

use crate::left::take_one;
use pipe_types::room::{Room, Sent, SentList};
use std::alloc::{AllocError, Global};

/// For so many sends room is made at first.
const FIRST_SENDS: usize = 16;

/// Sends each unit to the subscription of its partition.
#[derive(Drop)]
pub struct PartitionDispatch {
    alloc: Global,
}

impl PartitionDispatch {
    /// A dispatcher that takes its memory here. It takes none yet.
    pub fn new(alloc: Global) -> Self {
        PartitionDispatch { alloc }
    }

    /// What is sent of waiting units with these partitions in these rooms, by unit. The rooms stand in order of their
    /// subscriptions, no two with the same part.
    pub fn deliver(&mut self, parts: &[u32], room: &[Room]) -> Result<SentList, AllocError>
        requires ascending { AreAscending room.now }
        requires parts_differ { PartsDiffer room.now }
        requires few { length parts.now < 2 ^ 32 }
        // exactly what the partition rule sends of the waiting units
        ensures { IfOk result (λ sent. sent ≡ sends_by_place ByPartition room.now parts.now) }
    {
        let mut left = Vec::from_slice(self.alloc, room)?;
        let mut sent = Vec::with_capacity(self.alloc, FIRST_SENDS)?;
        for (place, part) in parts.iter().enumerate() {
            if let Some(sub) = take_one(&mut left, *part) {
                let unit = place as u32;
                sent.push(Sent { unit, sub })?;
            }
        }
        Ok(SentList::from_vec(sent))
    }
}

/// The partition of a key, from 0 up to `n`.
pub fn partition_of(key: &[u8], n: u32) -> u32
    requires { 1 ≤ n }
    // h mod n, where h starts at 0 and each byte makes it (31 h + byte) mod 2^32
    ensures { result ≡ partition_of_bytes key.now n }
{
    let mut hash = 0u32;
    for byte in key {
        hash = hash.wrapping_mul(31).wrapping_add(u32::from(*byte));
    }
    hash % n
}
