//! The broadcast dispatcher: each waiting unit goes to every live subscription that picks it, as long as none of them
//! would get more than it asked for. With no live subscription nothing is sent.
//!
//! It promises exactly the sends of the broadcast rule, by unit and then by subscription, or want of memory.
#![tactic(auto)]

ghost use Rattle.std.specs.Prelude.{◌≡◌, ℕ, ◌+◌, ◌*◌, ◌<◌, ◌≤◌, ◌++◌, ◌∷◌, [], true, false, if◌then◌else◌, cond, filter, map, length, get_or, OnOk, IfOk, replicate};
ghost use Rattle.pipe_types.specs.{Dispatchers.{ByBroadcast, picks_all, on_each, sends_by_place, serves_by_place}, Rooms.{AreAscending}};
ghost use Rattle.dispatch_broadcast.specs.{Least.{least_left}, Picks.{picks_in, places}};

use pipe_types::room::{Room, Sent, SentList};
use std::alloc::{AllocError, Global};

/// Sends every unit to every subscription.
#[derive(Drop)]
pub struct BroadcastDispatch {
    alloc: Global,
}

impl BroadcastDispatch {
    /// A dispatcher that takes its memory here. It takes none yet.
    pub fn new(alloc: Global) -> Self {
        BroadcastDispatch { alloc }
    }

    /// What is sent of so many waiting units in these rooms: by unit, then by subscription. The rooms stand in order of
    /// their subscriptions. In time for the rooms and for what is sent.
    #[tactic(auto, using(crate::proofs::Units::one_more, crate::proofs::Units::all_sent))]
    pub fn deliver(&mut self, waiting: u32, room: &[Room]) -> Result<SentList, AllocError>
        requires { AreAscending room.now }
        // exactly what the broadcast rule sends of the waiting units
        ensures { IfOk result (λ sent. sent ≡ sends_by_place (ByBroadcast picks_all) room.now (replicate waiting 0)) }
    {
        let count = least_open_demand(room).min(waiting);
        let mut sent = Vec::new(self.alloc);
        for unit in 0..count {
            send_to_each(&mut sent, unit, room)?;
        }
        Ok(SentList::from_vec(sent))
    }
}

/// What is sent, by unit and then by subscription, and how many units are served. They are the first.
#[derive(Drop)]
pub struct Served {
    pub sent: SentList,
    pub units: u32,
}

impl BroadcastDispatch {
    /// What is sent of so many waiting units in these rooms, where each room's subscription gets the units that it picks. The
    /// picks stand unit after unit, those of a unit by room. A unit is served as long as nobody would get more than it
    /// asked for, whoever picks it. The rooms stand in order of their subscriptions. In time for the rooms and for the units
    /// that are served.
    pub fn deliver_selected(
        &mut self,
        waiting: u32,
        room: &[Room],
        picks: &[bool],
    ) -> Result<Served, AllocError>
        requires ascending { AreAscending room.now }
        requires picks { length picks.now ≡ waiting * length room.now }
        // exactly what the broadcast rule sends and serves of the waiting units
        ensures sent { IfOk result (λ s. s.sent ≡ sends_by_place (ByBroadcast (picks_in room.now picks.now)) room.now (places waiting)) }
        ensures units { IfOk result (λ s. s.units ≡ length (serves_by_place (ByBroadcast (picks_in room.now picks.now)) room.now (places waiting))) }
    {
        let mut sent = Vec::new(self.alloc);
        let mut left = open_demands(self.alloc, room)?;
        let mut units = 0;
        if !room.is_empty() {
            while units < waiting && do_fit(&left, picks, units as usize * room.len()) {
                send_picked(&mut sent, &mut left, units, room, picks)?;
                units += 1;
            }
        }
        Ok(Served {
            sent: SentList::from_vec(sent),
            units,
        })
    }
}

/// The open demand of each room.
fn open_demands(alloc: Global, room: &[Room]) -> Result<Vec<u32>, AllocError>
    ensures { IfOk result (λ left. left.items ≡ map (λ v. v.left) room.now) }
{
    let mut left = Vec::new(alloc);
    for each in room {
        left.push(each.left)?;
    }
    Ok(left)
}

/// Whether each room that picks the unit, whose picks begin at that place, has an open demand.
fn do_fit(left: &[u32], picks: &[bool], at: usize) -> bool
    requires within { at + length left.now ≤ length picks.now }
    ensures yes { result ≡ true → (i : ℕ) → i < length left.now → get_or picks.now (at + i) false ≡ true → 1 ≤ get_or left.now i 0 }
    ensures no { result ≡ false → (i : ℕ) × (i < length left.now) × (get_or picks.now (at + i) false ≡ true) × (get_or left.now i 0 ≡ 0) }
{
    for i in 0..left.len() {
        if picks[at + i] && left[i] == 0 {
            return false;
        }
    }
    true
}

/// Sends the unit on the subscription of each room that picks it, and counts it there. After an `Err` some of them may stand
/// in the list.
fn send_picked(
    sent: &mut Vec<Sent>,
    left: &mut Vec<u32>,
    unit: u32,
    room: &[Room],
    picks: &[bool],
) -> Result<(), AllocError>
    requires ascending { AreAscending room.now }
    requires long { length left.old.items ≡ length room.now }
    requires within { unit * length room.now + length room.now ≤ length picks.now }
    requires fits { (i : ℕ) → i < length room.now → get_or picks.now (unit * length room.now + i) false ≡ true → 1 ≤ get_or left.old.items i 0 }
    ensures sent { OnOk result (sent.new.items ≡ sent.old.items ++ on_each unit (filter (λ r. picks_in room.now picks.now unit r.sub) room.now)) }
    ensures long { length left.new.items ≡ length room.now }
    ensures counted { OnOk result ((i : ℕ) → i < length room.now → get_or left.new.items i 0 + cond (get_or picks.now (unit * length room.now + i) false) 1 0 ≡ get_or left.old.items i 0) }
{
    let at = unit as usize * room.len();
    for i in 0..room.len() {
        let is_picked = picks[at + i];
        let sub = room[i].sub;
        push_if(is_picked, sent, Sent { unit, sub })?;
        left[i] -= u32::from(is_picked);
    }
    Ok(())
}

/// Puts the unit into the list, if it is picked.
fn push_if(is_picked: bool, sent: &mut Vec<Sent>, one: Sent) -> Result<(), AllocError>
    ensures { OnOk result (sent.new.items ≡ sent.old.items ++ (if is_picked then one ∷ [] else [])) }
{
    if is_picked {
        sent.push(one)?;
    }
    Ok(())
}

/// The least open demand in units; 0 with no room.
fn least_open_demand(room: &[Room]) -> u32
    ensures { result ≡ least_left room.now }
{
    let Some((first, others)) = room.split_first() else {
        return 0;
    };
    let mut least = first.left;
    for other in others {
        least = least.min(other.left);
    }
    least
}

/// Sends one unit on each subscription. After an `Err` some of them may stand in the list.
fn send_to_each(sent: &mut Vec<Sent>, unit: u32, room: &[Room]) -> Result<(), AllocError>
    ensures { OnOk result (sent.new.items ≡ sent.old.items ++ on_each unit room.now) }
{
    for each in room {
        let sub = each.sub;
        sent.push(Sent { unit, sub })?;
    }
    Ok(())
}
