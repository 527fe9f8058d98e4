//! Where the messages stand, a row each of 16 bytes. A place that takes more, as that of a failure with its reason, stands apart.

ghost use Rattle.std.specs.Prelude.{◌≡◌, ◌+◌, ◌-◌, ◌∷◌, [], ◌++◌, ◌≤◌, ◌<◌, ◌^◌, length, map, slice_get, slice_set, option_map, None, Some, IfSome, IfOk, OnOk, vec_len, vec_capacity};
ghost use Rattle.pipe_types.specs.declared.message.{Place.TheVariants.{Lost as LostPlace}, Loss.TheVariants.{Killed as KilledLoss}};
ghost use Rattle.core_tables.specs.Placed.{seen, other_of, IsHeld, AreKept, IsSplit, reason_in};
ghost use Rattle.core_tables.specs.declared.place_table.Spot.TheVariants.{Other as OtherSpot};

use pipe_types::message::{Loss, Outcome, Place, Why};
use pipe_types::numbers::{BatchNo, StageNo, SubNo};
use std::alloc::{AllocError, Global};
use std::marker::Model;

/// Where a message stands.
#[derive(Clone, Copy)]
pub enum Spot {
    Waiting(StageNo),
    Inbox(SubNo),
    Running(StageNo),
    Gathered(StageNo),
    InBatch(BatchNo),
    Successful,
    // Lost with this incarnation of the stage, by why that was killed.
    Crashed(StageNo, u32),
    Killed(StageNo, u32),
    Stopped(StageNo, u32),
    Limited(StageNo, u32),
    // Lost over the buffer's size.
    Overflow(StageNo),
    // As a place says that stands apart.
    Other,
}

/// A message's spot, and where its place stands among the others, from 1, or 0 where it never had one.
#[derive(Clone, Copy)]
pub struct Standing {
    pub spot: Spot,
    pub other: u32,
}

/// The places of messages, which contracts see as a `Vec` of them.
#[derive(Drop)]
pub struct PlaceTable {
    rows: Vec<Standing>,
    // Places that stand apart. There is room for one a row, of which only the rows with one use any.
    others: Vec<Place>,
}

impl Model for PlaceTable {
    ghost use Rattle.std.specs.Prelude.{◌≤◌, ◌<◌, ◌^◌, vec_capacity};
    ghost use Rattle.std.specs.declared.alloc.Global.{Global};
    ghost use Rattle.std.specs.declared.vec.Vec.{Vec};
    ghost use Rattle.pipe_types.specs.declared.message.Place.{Place};
    ghost use Rattle.core_tables.specs.Placed.{places_in, AreKept};

    ghost Value = { Vec Place Global };

    ghost view = { λ t. places_in t.others.items t.rows };

    ghost invariant = { λ t. AreKept t.others.items t.rows.items × (vec_capacity t.rows ≤ vec_capacity t.others) × (vec_capacity t.rows < 2 ^ 32) };
}

/// The spot of a loss with a stage's incarnation, by why that was killed, and its place where that stands apart.
fn killed(stage: StageNo, incarnation: u32, why: Why) -> (Spot, Option<Place>)
    ensures { IsSplit (LostPlace (KilledLoss stage incarnation why)) result.0 result.1 }
{
    match why {
        Why::Crash => (Spot::Crashed(stage, incarnation), None),
        Why::Kill => (Spot::Killed(stage, incarnation), None),
        Why::Stop => (Spot::Stopped(stage, incarnation), None),
        Why::Limit => (Spot::Limited(stage, incarnation), None),
        Why::Cancelled(sub) => {
            let loss = Loss::Killed(stage, incarnation, Why::Cancelled(sub));
            (Spot::Other, Some(Place::Lost(loss)))
        }
    }
}

/// The spot of a place, and the place where it stands apart.
#[inline(always)]
fn split(place: Place) -> (Spot, Option<Place>)
    ensures { IsSplit place result.0 result.1 }
{
    match place {
        Place::Waiting(stage) => (Spot::Waiting(stage), None),
        Place::Inbox(sub) => (Spot::Inbox(sub), None),
        Place::Running(stage) => (Spot::Running(stage), None),
        Place::Gathered(stage) => (Spot::Gathered(stage), None),
        Place::InBatch(batch) => (Spot::InBatch(batch), None),
        Place::Acked(Outcome::Successful) => (Spot::Successful, None),
        Place::Acked(outcome) => (Spot::Other, Some(Place::Acked(outcome))),
        Place::Lost(Loss::Killed(stage, incarnation, why)) => killed(stage, incarnation, why),
        Place::Lost(Loss::Overflow(stage)) => (Spot::Overflow(stage), None),
    }
}

/// The place apart there, from 1.
fn other_at(others: &[Place], at: u32) -> Place
    requires least { 1 ≤ at }
    requires most { at ≤ length others.now }
    ensures { result ≡ other_of others.now at }
{
    others[at as usize - 1]
}

/// The place that the row says.
#[inline(always)]
fn place_of(others: &[Place], row: Standing) -> Place
    requires { IsHeld (length others.now) row }
    ensures { result ≡ seen others.now row }
{
    match row.spot {
        Spot::Waiting(stage) => Place::Waiting(stage),
        Spot::Inbox(sub) => Place::Inbox(sub),
        Spot::Running(stage) => Place::Running(stage),
        Spot::Gathered(stage) => Place::Gathered(stage),
        Spot::InBatch(batch) => Place::InBatch(batch),
        Spot::Successful => Place::Acked(Outcome::Successful),
        Spot::Crashed(stage, from) => Place::Lost(Loss::Killed(stage, from, Why::Crash)),
        Spot::Killed(stage, from) => Place::Lost(Loss::Killed(stage, from, Why::Kill)),
        Spot::Stopped(stage, from) => Place::Lost(Loss::Killed(stage, from, Why::Stop)),
        Spot::Limited(stage, from) => Place::Lost(Loss::Killed(stage, from, Why::Limit)),
        Spot::Overflow(stage) => Place::Lost(Loss::Overflow(stage)),
        Spot::Other => other_at(others, row.other),
    }
}

/// The reason of a place that is a failure's.
fn reason_of(place: &Place) -> Option<&[u8]>
    ensures { option_map (λ reason. reason.now) result ≡ reason_in place.now }
{
    match place {
        Place::Acked(Outcome::Failed(why)) => Some(why.as_bytes()),
        _ => None,
    }
}

/// The reason of the failure that the row says.
fn reason_at(others: &[Place], row: Standing) -> Option<&[u8]>
    requires { IsHeld (length others.now) row }
    ensures { option_map (λ reason. reason.now) result ≡ reason_in (seen others.now row) }
{
    match row.spot {
        Spot::Other => reason_of(&others[row.other as usize - 1]),
        _ => None,
    }
}

/// Puts the place of a message into its row.
#[inline(always)]
fn put_spot(rows: &mut Vec<Standing>, at: usize, spot: Spot)
    requires { at < length rows.old.items }
    ensures rows { IfSome (slice_get rows.old.items at) (λ row. rows.new.items ≡ slice_set rows.old.items at (record { spot = spot; other = row.other })) }
    ensures capacity { vec_capacity rows.new ≡ vec_capacity rows.old }
{
    let other = rows[at].other;
    rows[at] = Standing { spot, other };
}

/// Puts the place of a message apart, where it had one there.
fn put_again(rows: &mut Vec<Standing>, others: &mut Vec<Place>, at: usize, slot: u32, place: Place)
    requires within { at < length rows.old.items }
    requires least { 1 ≤ slot }
    requires most { slot ≤ length others.old.items }
    ensures rows { rows.new.items ≡ slice_set rows.old.items at (record { spot = OtherSpot; other = slot }) }
    ensures others { others.new.items ≡ slice_set others.old.items (slot - 1) place }
    ensures capacity { vec_capacity rows.new ≡ vec_capacity rows.old }
    ensures places_capacity { vec_capacity others.new ≡ vec_capacity others.old }
{
    others[slot as usize - 1] = place;
    rows[at] = Standing {
        spot: Spot::Other,
        other: slot,
    };
}

/// Puts the place behind the others that stand apart.
fn keep_other(others: &mut Vec<Place>, place: Place)
    requires { vec_len others.old < vec_capacity others.old }
    ensures items { others.new.items ≡ others.old.items ++ place ∷ [] }
    ensures len { vec_len others.new ≡ vec_len others.old + 1 }
    ensures capacity { vec_capacity others.new ≡ vec_capacity others.old }
{
    // the toolchain loses the type of an outcome in a push of a place where the function does not name it
    let outcome = Outcome::Successful;
    let _ = outcome;
    others.push_reserved(place);
}

/// Puts the place of a message apart, where it had none there.
fn put_first(rows: &mut Vec<Standing>, others: &mut Vec<Place>, at: usize, place: Place)
    requires within { at < length rows.old.items }
    requires room { vec_len others.old < vec_capacity others.old }
    requires few { length others.old.items + 1 < 2 ^ 32 }
    ensures rows { rows.new.items ≡ slice_set rows.old.items at (record { spot = OtherSpot; other = length others.old.items + 1 }) }
    ensures others { others.new.items ≡ others.old.items ++ place ∷ [] }
    ensures capacity { vec_capacity rows.new ≡ vec_capacity rows.old }
    ensures places_capacity { vec_capacity others.new ≡ vec_capacity others.old }
{
    let slot = others.len() as u32 + 1;
    keep_other(others, place);
    rows[at] = Standing {
        spot: Spot::Other,
        other: slot,
    };
}

/// Puts the place of a message apart.
#[inline(never)]
fn put_other(rows: &mut Vec<Standing>, others: &mut Vec<Place>, at: usize, place: Place)
    requires within { at < length rows.old.items }
    requires kept { AreKept others.old.items rows.old.items }
    requires room { vec_capacity rows.old ≤ vec_capacity others.old }
    requires few { vec_capacity rows.old < 2 ^ 32 }
    ensures kept { AreKept others.new.items rows.new.items }
    ensures items { map (seen others.new.items) rows.new.items ≡ slice_set (map (seen others.old.items) rows.old.items) at place }
    ensures capacity { vec_capacity rows.new ≡ vec_capacity rows.old }
    ensures places_capacity { vec_capacity others.new ≡ vec_capacity others.old }
{
    let slot = rows[at].other;
    if slot == 0 {
        put_first(rows, others, at, place);
    } else {
        put_again(rows, others, at, slot, place);
    }
}

/// Notes where a message stands.
#[inline(always)]
fn put(rows: &mut Vec<Standing>, others: &mut Vec<Place>, at: usize, place: Place)
    requires within { at < length rows.old.items }
    requires kept { AreKept others.old.items rows.old.items }
    requires room { vec_capacity rows.old ≤ vec_capacity others.old }
    requires few { vec_capacity rows.old < 2 ^ 32 }
    ensures kept { AreKept others.new.items rows.new.items }
    ensures items { map (seen others.new.items) rows.new.items ≡ slice_set (map (seen others.old.items) rows.old.items) at place }
    ensures capacity { vec_capacity rows.new ≡ vec_capacity rows.old }
    ensures places_capacity { vec_capacity others.new ≡ vec_capacity others.old }
{
    let (spot, other) = split(place);
    match other {
        None => put_spot(rows, at, spot),
        Some(other) => put_other(rows, others, at, other),
    }
}

/// Puts a message behind the others whose place stands in its row.
#[inline(always)]
fn append_spot(rows: &mut Vec<Standing>, spot: Spot)
    requires room { vec_len rows.old < vec_capacity rows.old }
    ensures rows { rows.new.items ≡ rows.old.items ++ (record { spot = spot; other = 0 }) ∷ [] }
    ensures len { vec_len rows.new ≡ vec_len rows.old + 1 }
    ensures capacity { vec_capacity rows.new ≡ vec_capacity rows.old }
{
    rows.push_reserved(Standing { spot, other: 0 });
}

/// Puts a message behind the others whose place stands apart.
#[inline(never)]
fn append_other(rows: &mut Vec<Standing>, others: &mut Vec<Place>, place: Place)
    requires room { vec_len rows.old < vec_capacity rows.old }
    requires others_room { vec_len others.old < vec_capacity others.old }
    requires few { length others.old.items + 1 < 2 ^ 32 }
    ensures rows { rows.new.items ≡ rows.old.items ++ (record { spot = OtherSpot; other = length others.old.items + 1 }) ∷ [] }
    ensures others { others.new.items ≡ others.old.items ++ place ∷ [] }
    ensures len { vec_len rows.new ≡ vec_len rows.old + 1 }
    ensures capacity { vec_capacity rows.new ≡ vec_capacity rows.old }
    ensures others_capacity { vec_capacity others.new ≡ vec_capacity others.old }
{
    let slot = others.len() as u32 + 1;
    keep_other(others, place);
    rows.push_reserved(Standing {
        spot: Spot::Other,
        other: slot,
    });
}

/// Puts a message behind the others.
#[inline(always)]
fn append(rows: &mut Vec<Standing>, others: &mut Vec<Place>, place: Place)
    requires kept { AreKept others.old.items rows.old.items }
    requires rows { vec_len rows.old < vec_capacity rows.old }
    requires room { vec_capacity rows.old ≤ vec_capacity others.old }
    requires few { vec_capacity rows.old < 2 ^ 32 }
    ensures kept { AreKept others.new.items rows.new.items }
    ensures items { map (seen others.new.items) rows.new.items ≡ map (seen others.old.items) rows.old.items ++ place ∷ [] }
    ensures len { vec_len rows.new ≡ vec_len rows.old + 1 }
    ensures capacity { vec_capacity rows.new ≡ vec_capacity rows.old }
    ensures others_capacity { vec_capacity others.new ≡ vec_capacity others.old }
{
    let (spot, other) = split(place);
    match other {
        None => append_spot(rows, spot),
        Some(other) => append_other(rows, others, other),
    }
}

/// The next capacity of a table with room for so many rows that holds some and is to hold so many more.
fn wider(capacity: usize, held: usize, additional: usize) -> Result<usize, AllocError>
    requires capacity { capacity < 2 ^ 32 }
    requires held { held ≤ capacity }
    ensures { IfOk result (λ wide. (held + additional ≤ wide) × (wide < 2 ^ 32)) }
{
    let most = u32::MAX as usize;
    if additional > most - held {
        return Err(AllocError);
    }
    let wide = (held + additional).max(2 * capacity);
    Ok(wide.min(most))
}

/// Makes room for so many rows in all, and as many places apart.
fn widen(rows: &mut Vec<Standing>, others: &mut Vec<Place>, wide: usize) -> Result<(), AllocError>
    requires rows { vec_len rows.old ≤ wide }
    requires others { vec_len others.old ≤ wide }
    requires room { vec_capacity rows.old ≤ vec_capacity others.old }
    requires few { vec_capacity rows.old < 2 ^ 32 }
    requires wide_few { wide < 2 ^ 32 }
    ensures rows { rows.new.items ≡ rows.old.items }
    ensures others { others.new.items ≡ others.old.items }
    ensures len { vec_len rows.new ≡ vec_len rows.old }
    ensures room { vec_capacity rows.new ≤ vec_capacity others.new }
    ensures few { vec_capacity rows.new < 2 ^ 32 }
    ensures ok { OnOk result (wide ≤ vec_capacity rows.new) }
    ensures capacity { vec_capacity rows.old ≤ vec_capacity rows.new }
{
    others.reserve_exact(wide - others.len())?;
    rows.reserve_exact(wide - rows.len())
}

impl PlaceTable {
    /// None. What it takes later comes from `alloc`.
    pub fn new(alloc: Global) -> Self
        ensures items { result.items ≡ [] }
    {
        PlaceTable {
            rows: Vec::new(alloc),
            others: Vec::new(alloc),
        }
    }

    /// How many places there are.
    pub fn len(&self) -> usize
        ensures { result ≡ length self.now.items }
    {
        self.rows.len()
    }

    /// The place there, from 0.
    #[inline(always)]
    pub fn read(&self, at: usize) -> Place
        requires { at < length self.now.items }
        ensures { slice_get self.now.items at ≡ Some result }
    {
        place_of(&self.others, self.rows[at])
    }

    /// The place there, from 0, and none past the end.
    #[inline(always)]
    pub fn get(&self, at: usize) -> Option<Place>
        ensures { result ≡ slice_get self.now.items at }
    {
        if at < self.len() {
            Some(self.read(at))
        } else {
            None
        }
    }

    /// Why the message there, from 0, failed, where it failed.
    pub fn reason(&self, at: usize) -> Option<&[u8]>
        requires { at < length self.now.items }
        ensures { IfSome (slice_get self.now.items at) (λ place. option_map (λ reason. reason.now) result ≡ reason_in place) }
    {
        reason_at(&self.others, self.rows[at])
    }

    /// Puts another place there, from 0.
    #[inline(always)]
    pub fn write(&mut self, at: usize, place: Place)
        requires { at < length self.old.items }
        ensures items { self.new.items ≡ slice_set self.old.items at place }
        ensures capacity { vec_capacity self.new ≡ vec_capacity self.old }
    {
        put(&mut self.rows, &mut self.others, at, place);
    }

    /// Puts the place behind the others, in room that was made before.
    #[inline(always)]
    pub fn push(&mut self, place: Place)
        requires { vec_len self.old < vec_capacity self.old }
        ensures items { self.new.items ≡ self.old.items ++ place ∷ [] }
        ensures len { vec_len self.new ≡ vec_len self.old + 1 }
        ensures capacity { vec_capacity self.new ≡ vec_capacity self.old }
    {
        append(&mut self.rows, &mut self.others, place);
    }

    /// Makes room for that many further places, which then take no memory.
    pub fn reserve(&mut self, additional: usize) -> Result<(), AllocError>
        ensures items { self.new.items ≡ self.old.items }
        ensures len { vec_len self.new ≡ vec_len self.old }
        ensures ok { OnOk result (vec_len self.new + additional ≤ vec_capacity self.new) }
        ensures capacity { vec_capacity self.old ≤ vec_capacity self.new }
    {
        let held = self.rows.len();
        let capacity = self.rows.capacity();
        if additional <= capacity - held {
            return Ok(());
        }
        let wide = wider(capacity, held, additional)?;
        widen(&mut self.rows, &mut self.others, wide)
    }
}
