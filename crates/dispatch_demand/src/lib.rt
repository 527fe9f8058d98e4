//! The demand dispatcher: the subscriptions are served in order of their open demand, the greatest first and ties by
//! the smaller subscription, and each in turn takes as many of the waiting units as it asked for.
//!
//! It promises exactly the sends of the demand rule, by unit and then by subscription, or want of memory.
#![tactic(auto)]

ghost use Rattle.std.specs.{Prelude.{◌≡◌, ◌++◌, ◌+◌, ◌<◌, ◌^◌, OnOk, IfOk, replicate, map}, List.Sorted.{IsPermutation, IsSorted}};
ghost use Rattle.pipe_types.specs.{Dispatchers.{ByDemand, sends_by_place}, Rooms.{AreAscending}};
ghost use Rattle.dispatch_demand.specs.{Run.{run}, Serving.{serving_key, key_cmp, room_at}};

use pipe_types::numbers::SubNo;
use pipe_types::room::{Room, Sent, SentList};
use std::alloc::{AllocError, Global};
use std::cmp::Reverse;

/// For so many sends room is made at first.
const FIRST_SENDS: usize = 16;

/// Sends each unit to one subscription, the greatest open demand first.
#[derive(Drop)]
pub struct DemandDispatch {
    alloc: Global,
}

impl DemandDispatch {
    /// A dispatcher that takes its memory here. It takes none yet.
    pub fn new(alloc: Global) -> Self {
        DemandDispatch { alloc }
    }

    /// What is sent of so many waiting units in these rooms, by unit. The rooms stand in order of their subscriptions.
    pub fn deliver(&mut self, waiting: u32, room: &[Room]) -> Result<SentList, AllocError>
        requires { AreAscending room.now }
        // exactly what the demand rule sends of the waiting units
        ensures { IfOk result (λ sent. sent ≡ sends_by_place ByDemand room.now (replicate waiting 0)) }
    {
        let keys = keys_in_order(self.alloc, room)?;
        let order = rooms_of(self.alloc, &keys)?;
        let mut sent = Vec::with_capacity(self.alloc, FIRST_SENDS)?;
        let mut next = 0;
        for served in &order {
            let count = served.left.min(waiting - next);
            send_run(&mut sent, next, count, served.sub)?;
            next += count;
        }
        Ok(SentList::from_vec(sent))
    }
}

/// Where the rooms stand in the order in which they are served.
fn keys_in_order(alloc: Global, room: &[Room]) -> Result<Vec<(Reverse<u32>, SubNo)>, AllocError>
    ensures same { IfOk result (λ keys. IsPermutation (map serving_key room.now) keys.items) }
    ensures ordered { IfOk result (λ keys. IsSorted key_cmp keys.items) }
{
    let mut keys = keys_of(alloc, room)?;
    keys.sort_unstable();
    Ok(keys)
}

fn keys_of(alloc: Global, room: &[Room]) -> Result<Vec<(Reverse<u32>, SubNo)>, AllocError>
    ensures { IfOk result (λ keys. keys.items ≡ map serving_key room.now) }
{
    room.iter().map(|u| (Reverse(u.left), u.sub)).collect(alloc)
}

/// The rooms that stand there. Their parts do not count.
fn rooms_of(alloc: Global, keys: &Vec<(Reverse<u32>, SubNo)>) -> Result<Vec<Room>, AllocError>
    ensures { IfOk result (λ rooms. rooms.items ≡ map room_at keys.now.items) }
{
    keys.iter()
        .map(|key| Room {
            sub: key.1,
            part: 0,
            left: key.0.0,
        })
        .collect(alloc)
}

/// Sends so many units from `first` on. After an `Err` some of them may stand in the list.
fn send_run(sent: &mut Vec<Sent>, first: u32, count: u32, sub: SubNo) -> Result<(), AllocError>
    requires { first + count < 2 ^ 32 }
    ensures { OnOk result (sent.new.items ≡ sent.old.items ++ run first count sub) }
{
    for k in 0..count {
        let unit = first + k;
        sent.push(Sent { unit, sub })?;
    }
    Ok(())
}
