//! Which waiting units a dispatcher serves, and on which subscriptions it sends them, told unit by unit and room by room.
//! Where it broadcasts, every subscription picks every unit.
//!
//! Each function says its definition in `pipe_types`, of any rooms in any order.
#![tactic(auto)]

ghost use Rattle.std.specs.Prelude.{◌≡◌, ◌++◌, IfOk, List, ℕ, map, filter, reverse, length, count_by, fold, ◌+◌, ◌*◌, ◌%◌, ◌^◌, ◌==◌, nat_lt, if◌then◌else◌, cond, not, ◌&&◌};
ghost use Rattle.std.specs.List.{list_all, list_any};
ghost use Rattle.pipe_types.specs.Numbers.{sub_before as sub_before_in};
ghost use Rattle.pipe_types.specs.Dispatchers.{is_served_before as is_served_before_in, ahead as ahead_in, served_as, picks_all, goes as goes_in, has_rooms as has_rooms_in, is_served as is_served_in, on_each, sends as sends_in, serves as serves_in, partition_of as partition_of_in};

use pipe_types::numbers::SubNo;
use pipe_types::room::{Room, Sent};
use pipe_types::topology::Dispatch;
use std::alloc::{AllocError, Global};

/// Whether `a` comes before `b`: by consumer, then producer, then generation.
fn sub_before(a: SubNo, b: SubNo) -> bool
    ensures { result ≡ sub_before_in a b }
{
    a.consumer.0 < b.consumer.0
        || (a.consumer.0 == b.consumer.0
            && (a.producer.0 < b.producer.0
                || (a.producer.0 == b.producer.0 && a.generation < b.generation)))
}

/// Whether `v` is served before `u`: the greater open demand first, ties by the smaller subscription.
fn is_served_before(v: &Room, u: &Room) -> bool
    ensures { result ≡ is_served_before_in v.now u.now }
{
    u.left < v.left || (u.left == v.left && sub_before(v.sub, u.sub))
}

/// The open demand of the room, where it is served before `u`.
fn left_before(v: &Room, u: &Room) -> u32
    ensures { result ≡ (if is_served_before_in v.now u.now then v.now.left else 0) }
{
    if is_served_before(v, u) { v.left } else { 0 }
}

/// The open demand of the rooms that are served before this one. A sum above 64 bits counts as want of memory.
fn ahead(rooms: &[Room], u: &Room) -> Result<u64, AllocError>
    ensures { IfOk result (λ n. n ≡ ahead_in rooms.now u.now) }
{
    let mut sum: u64 = 0;
    for v in rooms {
        match sum.checked_add(u64::from(left_before(v, u))) {
            Some(more) => sum = more,
            None => return Err(AllocError),
        }
    }
    Ok(sum)
}

/// Whether every room has more open demand than so many units.
fn all_above(rooms: &[Room], units: usize) -> bool
    ensures { result ≡ list_all (λ v. nat_lt units v.left) rooms.now }
{
    for v in rooms {
        if v.left as usize <= units {
            return false;
        }
    }
    true
}

/// How many of these units, each with its partition, have this partition.
fn count_of(units: &[(u32, u32)], part: u32) -> usize
    ensures { result ≡ count_by (λ p. p == part) (map (λ d. d.1) units.now) }
{
    let mut count = 0;
    for unit in units {
        if unit.1 == part {
            count += 1;
        }
    }
    count
}

/// Whether a unit of this partition goes on the room's subscription, where these units wait before it.
#[tactic(auto, using(crate::proofs::Turned::length_turned, crate::proofs::Turned::count_turned))]
fn goes(
    kind: Dispatch,
    rooms: &[Room],
    before: &[(u32, u32)],
    part: u32,
    u: &Room,
) -> Result<bool, AllocError>
    ensures { IfOk result (λ sent. sent ≡ goes_in (served_as kind picks_all) rooms.now (reverse (map (λ d. d.1) before.now)) part u.now) }
{
    match kind {
        Dispatch::Demand => {
            let first = ahead(rooms, u)?;
            let place = before.len() as u64;
            match first.checked_add(u64::from(u.left)) {
                Some(end) => Ok(first <= place && place < end),
                None => Err(AllocError),
            }
        }
        Dispatch::Broadcast => Ok(all_above(rooms, before.len())),
        Dispatch::Partition => { Ok(part == u.part && count_of(before, u.part) < u.left as usize) }
    }
}

/// Puts the unit behind the others, on the subscription of each room on which it goes.
fn push_each(
    sent: Vec<Sent>,
    kind: Dispatch,
    rooms: &[Room],
    before: &[(u32, u32)],
    unit: (u32, u32),
) -> Result<Vec<Sent>, AllocError>
    ensures { IfOk result (λ more. more.items ≡ sent.items ++ on_each unit.0 (filter (goes_in (served_as kind picks_all) rooms.now (reverse (map (λ d. d.1) before.now)) unit.1) rooms.now)) }
{
    let mut more = sent;
    for u in rooms {
        if goes(kind, rooms, before, unit.1, u)? {
            more.push(Sent {
                unit: unit.0,
                sub: u.sub,
            })?;
        }
    }
    Ok(more)
}

/// What is sent of waiting units, each with its partition: by unit, then by room.
pub fn sends(
    alloc: Global,
    kind: Dispatch,
    rooms: &[Room],
    units: &[(u32, u32)],
) -> Result<Vec<Sent>, AllocError>
    ensures { IfOk result (λ sent. sent.items ≡ sends_in (served_as kind picks_all) rooms.now units.now) }
{
    let mut sent = Vec::new(alloc);
    for i in 0..units.len() {
        sent = push_each(sent, kind, rooms, &units[..i], units[i])?;
    }
    Ok(sent)
}

/// Whether a unit of this partition goes on the subscription of some room, where these units wait before it.
fn goes_somewhere(
    kind: Dispatch,
    rooms: &[Room],
    before: &[(u32, u32)],
    part: u32,
) -> Result<bool, AllocError>
    ensures { IfOk result (λ goes. goes ≡ list_any (goes_in (served_as kind picks_all) rooms.now (reverse (map (λ d. d.1) before.now)) part) rooms.now) }
{
    for u in rooms {
        let is_sent = goes(kind, rooms, before, part, u)?;
        if is_sent {
            return Ok(true);
        }
    }
    Ok(false)
}

/// Whether there is a room.
pub fn has_rooms(rooms: &[Room]) -> bool
    ensures { result ≡ has_rooms_in rooms.now }
{
    match rooms.first() {
        Some(_room) => true,
        None => false,
    }
}

/// Whether there is a room, and every room has more open demand than so many units.
fn some_above(rooms: &[Room], units: usize) -> bool
    ensures { result ≡ (has_rooms_in rooms.now && list_all (λ v. nat_lt units v.left) rooms.now) }
{
    has_rooms(rooms) && all_above(rooms, units)
}

/// Whether a unit of this partition is served, where these units wait before it.
fn is_served(
    kind: Dispatch,
    rooms: &[Room],
    before: &[(u32, u32)],
    part: u32,
) -> Result<bool, AllocError>
    ensures { IfOk result (λ served. served ≡ is_served_in (served_as kind picks_all) rooms.now (reverse (map (λ d. d.1) before.now)) part) }
{
    match kind {
        Dispatch::Demand => goes_somewhere(Dispatch::Demand, rooms, before, part),
        Dispatch::Broadcast => Ok(some_above(rooms, before.len())),
        Dispatch::Partition => goes_somewhere(Dispatch::Partition, rooms, before, part),
    }
}

/// Those of these waiting units, each with its partition, that are served, in order.
pub fn serves(
    alloc: Global,
    kind: Dispatch,
    rooms: &[Room],
    units: &[(u32, u32)],
) -> Result<Vec<u32>, AllocError>
    ensures { IfOk result (λ served. served.items ≡ serves_in (served_as kind picks_all) rooms.now units.now) }
{
    let mut served = Vec::new(alloc);
    for i in 0..units.len() {
        let is_next = is_served(kind, rooms, &units[..i], units[i].1)?;
        if is_next {
            served.push(units[i].0)?;
        }
    }
    Ok(served)
}

/// The hash of a byte string, of 32 bits.
fn hash(bytes: &[u8]) -> u64
    ensures { result ≡ fold (λ h b. (31 * h + b) % 2 ^ 32) 0 bytes.now }
{
    let mut h: u64 = 0;
    for b in bytes {
        h = (31 * h + u64::from(*b)) % 4_294_967_296;
    }
    h
}

/// The partition of a byte string. Without parts it is the hash itself.
#[tactic(auto, using(crate::proofs::Remainders::by_zero))]
pub fn partition_of(bytes: &[u8], parts: u32) -> u64
    ensures { result ≡ partition_of_in bytes.now parts }
{
    let h = hash(bytes);
    if parts == 0 {
        return h;
    }
    h % u64::from(parts)
}
