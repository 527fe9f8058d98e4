//! The subscriptions of a pipeline: for each pair of a consumer and a producer the generation that it has now, whether
//! that one is live, and its counts.
//!
//! A contract sees the table of the rows, and reads the row of a pair by `row_at`. Each call says what becomes of the
//! row of its pair, and that the rows of all other pairs are as before. `add` alone takes memory.
#![tactic(auto)]

ghost use Rattle.std.specs.Prelude.{◌≡◌, ◌==◌, ◌+◌, ◌*◌, ◌<◌, ◌≤◌, ◌^◌, ◌-◌, ◌↔◌, [], Option, true, false, length, option_map, IsTrue, IsSome, IfSome, OnOk, IfOk, OnErr, nat_lt, if◌then◌else◌};
ghost use Rattle.pipe_types.specs.{Numbers.{subscription}, declared.numbers.StageNo.{StageNo as Stage}};
ghost use Rattle.pipe_model.specs.Lives.{exits as mode_exits};
ghost use Rattle.stage_demand.specs.{Demand.{counts_of}, declared.TheConstants.{MAX_DEMAND}};
ghost use Rattle.stage_subs.specs.Subs.{row_at, row_of, rows_of, seen_in, slot_of, generation_in, live_in, live_rows, has_due_in, due_rows, is_live, live_sub, open_in, due_on, room_on, room_below as room_below_in, room_to as room_to_in, begun, closed, asked_more, sent_more, handled_more, IsPut, IsChanged};

use pipe_types::message::Why;
use pipe_types::numbers::{StageNo, SubNo};
use pipe_types::topology::CancelMode;
use stage_demand::Demand;
use std::alloc::{AllocError, Global};
use std::marker::Model;

/// From so many live subscriptions on none is added.
pub const MOST_LIVE: u32 = 2_048;

/// The greatest number of a stage.
pub const LAST_STAGE: u16 = 64;

/// How many rows the table has for each consumer.
const STRIDE: usize = 65;

/// How many consumers the table has rows for.
const CONSUMERS: u16 = 65;

/// The last subscription of one pair.
#[derive(Clone, Copy, PartialEq, Eq)]
struct SubRow {
    generation: u32,
    live: bool,
    demand: Demand,
}

/// Why no subscription was added.
#[derive(Clone, Copy, PartialEq, Eq)]
pub enum SubsFault {
    Full,
    OutOfMemory,
}

impl From<AllocError> for SubsFault {
    ghost use Rattle.std.specs.Prelude.{◌≡◌};
    ghost use Rattle.stage_subs.specs.declared.SubsFault.TheVariants.{OutOfMemory};

    ghost from_gives = { λ _ fault. fault ≡ OutOfMemory };

    fn from(_failed: AllocError) -> SubsFault {
        SubsFault::OutOfMemory
    }
}

/// All subscriptions, by pair.
#[derive(Drop)]
pub struct Subs {
    rows: Vec<Option<SubRow>>,
    live: u32,
    // On how many of the live ones an ask is due.
    due: u32,
}

impl Model for Subs {
    ghost use Rattle.std.specs.Prelude.{List, Option};
    ghost use Rattle.stage_subs.specs.Pairs.{PairRow};

    ghost Value = { List (Option PairRow) };

    ghost use Rattle.stage_subs.specs.Subs.{rows_of, IsTable};

    ghost view = { λ s. rows_of s.rows.items };

    ghost invariant = { λ s. IsTable s.rows.items s.live s.due };
}

impl Subs {
    /// No subscription, with no memory yet.
    pub fn new(alloc: Global) -> Self
        ensures { result ≡ [] }
    {
        Subs {
            rows: Vec::new(alloc),
            live: 0,
            due: 0,
        }
    }

    /// Adds the pair's next subscription, with nothing asked for, and answers its number. The pair has no live one.
    pub fn add(
        &mut self,
        consumer: StageNo,
        producer: StageNo,
        min: u32,
        max: u32,
    ) -> Result<SubNo, SubsFault>
        requires min_below_max { min < max }
        requires max_in_range { max ≤ MAX_DEMAND }
        requires consumer_in_range { consumer.0 ≤ LAST_STAGE }
        requires producer_in_range { producer.0 ≤ LAST_STAGE }
        requires not_live { live_in (row_at self.old consumer producer) ≡ false }
        requires generations { generation_in (row_at self.old consumer producer) < 2 ^ 32 - 1 }
        ensures next { IfOk result (λ sub.
            sub ≡ subscription consumer producer (generation_in (row_at self.old consumer producer) + 1)) }
        ensures added { IfOk result (λ sub. IsPut self.old self.new consumer producer (begun sub.generation min max)) }
        ensures live { OnOk result (live_rows self.new ≡ live_rows self.old + 1) }
        ensures full { (result ≡ Err SubsFault.Full) ↔ (MOST_LIVE ≤ live_rows self.old) }
        ensures refused { OnErr result (self.new ≡ self.old) }
    {
        if self.live >= MOST_LIVE {
            return Err(SubsFault::Full);
        }
        make_rows(&mut self.rows)?;
        let generation = next_generation(find(&self.rows, consumer, producer));
        let row = SubRow {
            generation,
            live: true,
            demand: Demand::new(min, max),
        };
        put(&mut self.rows, &mut self.due, consumer, producer, row);
        self.live += 1;
        Ok(SubNo {
            consumer,
            producer,
            generation,
        })
    }

    /// Begins the next subscription of a pair that had one and has no live one, with nothing asked for. It takes the
    /// place of the last one, and no memory.
    pub fn renew(&mut self, consumer: StageNo, producer: StageNo, min: u32, max: u32)
        requires min_below_max { min < max }
        requires max_in_range { max ≤ MAX_DEMAND }
        requires had { IsSome (row_at self.old consumer producer) }
        requires not_live { live_in (row_at self.old consumer producer) ≡ false }
        requires generations { generation_in (row_at self.old consumer producer) < 2 ^ 32 - 1 }
        ensures renewed { IsPut self.old self.new consumer producer (begun (generation_in (row_at self.old consumer producer) + 1) min max) }
        ensures live { live_rows self.new ≡ live_rows self.old + 1 }
    {
        if let Some(last) = find(&self.rows, consumer, producer) {
            let nothing_asked = Demand::new(min, max);
            let row = SubRow {
                generation: last.generation + 1,
                live: true,
                demand: nothing_asked,
            };
            put(&mut self.rows, &mut self.due, consumer, producer, row);
            self.live += 1;
        }
    }

    /// Closes a live subscription. Its counts stay.
    pub fn close(&mut self, sub: SubNo)
        requires live { is_live self.old sub ≡ true }
        ensures closed { IsChanged self.old self.new sub closed }
        ensures live { live_rows self.new + 1 ≡ live_rows self.old }
    {
        if let Some(row) = find(&self.rows, sub.consumer, sub.producer) {
            let row = SubRow { live: false, ..row };
            put(
                &mut self.rows,
                &mut self.due,
                sub.consumer,
                sub.producer,
                row,
            );
            self.live -= 1;
        }
    }

    /// Counts the ask that is due on a live subscription.
    pub fn ask(&mut self, sub: SubNo, n: u32)
        requires live { is_live self.old sub ≡ true }
        requires due { n ≡ due_on self.old sub }
        requires fits { IfSome (row_of self.old sub) (λ row. row.counts.asked + n < 2 ^ 64) }
        ensures asked { IsChanged self.old self.new sub (asked_more n) }
        ensures live { live_rows self.new ≡ live_rows self.old }
    {
        if let Some(row) = find(&self.rows, sub.consumer, sub.producer) {
            let mut demand = row.demand;
            demand.asked(n);
            put(
                &mut self.rows,
                &mut self.due,
                sub.consumer,
                sub.producer,
                SubRow { demand, ..row },
            );
        }
    }

    /// Counts `k` units that were sent on a live subscription, within its open demand.
    pub fn sent(&mut self, sub: SubNo, k: u32)
        requires live { is_live self.old sub ≡ true }
        requires within { k ≤ room_on self.old sub }
        ensures sent { IsChanged self.old self.new sub (sent_more k) }
        ensures live { live_rows self.new ≡ live_rows self.old }
    {
        if let Some(row) = find(&self.rows, sub.consumer, sub.producer) {
            let mut demand = row.demand;
            demand.arrived(k);
            put(
                &mut self.rows,
                &mut self.due,
                sub.consumer,
                sub.producer,
                SubRow { demand, ..row },
            );
        }
    }

    /// Counts `k` units that were sent before and are handled now. The subscription is its pair's last one; it may be
    /// closed, since the units that came before it closed are handled too.
    pub fn handled(&mut self, sub: SubNo, k: u32)
        requires last { generation_in (row_of self.old sub) ≡ sub.generation }
        requires within { IfSome (row_of self.old sub) (λ row. row.counts.handled + k ≤ row.counts.arrived) }
        ensures handled { IsChanged self.old self.new sub (handled_more k) }
        ensures live { live_rows self.new ≡ live_rows self.old }
    {
        if let Some(row) = find(&self.rows, sub.consumer, sub.producer) {
            let mut demand = row.demand;
            demand.handled(k);
            put(
                &mut self.rows,
                &mut self.due,
                sub.consumer,
                sub.producer,
                SubRow { demand, ..row },
            );
        }
    }

    /// Whether the subscription is its pair's last one, live or closed.
    pub fn is_last(&self, sub: SubNo) -> bool
        ensures { result ≡ (generation_in (row_of self.now sub) == sub.generation) }
    {
        last_generation(find(&self.rows, sub.consumer, sub.producer)) == sub.generation
    }

    /// Whether an ask is due on any subscription.
    pub fn has_due(&self) -> bool
        ensures { result ≡ nat_lt 0 (due_rows self.now) }
    {
        self.due > 0
    }

    /// The size of the ask that is due, in units, or 0 where none is.
    pub fn due(&self, sub: SubNo) -> u32
        ensures { result ≡ due_on self.now sub }
    {
        match find(&self.rows, sub.consumer, sub.producer) {
            Some(row) if row.live && row.generation == sub.generation => row.demand.due(),
            _ => 0,
        }
    }

    /// The open demand of a subscription, in units: 0 where it is not live.
    pub fn room_of(&self, sub: SubNo) -> u32
        ensures { result ≡ room_on self.now sub }
    {
        match find(&self.rows, sub.consumer, sub.producer) {
            Some(row) if row.live && row.generation == sub.generation => row.demand.left(),
            _ => 0,
        }
    }

    /// The open demand of all live subscriptions on a producer, in units.
    pub fn room_below(&self, producer: StageNo) -> u64
        ensures { result ≡ room_below_in self.now producer }
    {
        room_to(&self.rows, producer, CONSUMERS)
    }

    /// The pair's live subscription.
    pub fn live_of(&self, consumer: StageNo, producer: StageNo) -> Option<SubNo>
        ensures { result ≡ live_sub self.now consumer producer }
    {
        match find(&self.rows, consumer, producer) {
            Some(row) if row.live => Some(SubNo {
                consumer,
                producer,
                generation: row.generation,
            }),
            _ => None,
        }
    }
}

/// Whether a consumer of this mode is killed with a stage that was killed for this first reason.
pub fn exits(mode: CancelMode, why: Why) -> bool
    ensures { result ≡ mode_exits mode why }
{
    match (mode, why) {
        (CancelMode::Permanent, _) => true,
        (CancelMode::Transient, Why::Stop) => false,
        (CancelMode::Transient, _) => true,
        (CancelMode::Temporary, _) => false,
    }
}

/// Makes a row for each pair, where there is none yet. The rows say what they said.
fn make_rows(rows: &mut Vec<Option<SubRow>>) -> Result<(), AllocError>
    requires { 0 < length rows.old.items → length rows.old.items ≡ CONSUMERS * STRIDE }
    ensures made { OnOk result (length rows.new.items ≡ CONSUMERS * STRIDE) }
    ensures rows { OnOk result ((c p : Stage) → row_at (rows_of rows.new.items) c p ≡ row_at (rows_of rows.old.items) c p) }
    ensures live { OnOk result (live_rows (rows_of rows.new.items) ≡ live_rows (rows_of rows.old.items)) }
    ensures due { OnOk result (due_rows (rows_of rows.new.items) ≡ due_rows (rows_of rows.old.items)) }
    ensures refused { OnErr result (rows.new.items ≡ rows.old.items) }
{
    if rows.is_empty() {
        rows.resize(STRIDE * CONSUMERS as usize, None)?;
    }
    Ok(())
}

/// The generation of the pair's last subscription, and 0 where it never had one.
fn last_generation(last: Option<SubRow>) -> u32
    ensures { result ≡ generation_in (option_map seen_in last) }
{
    match last {
        Some(row) => row.generation,
        None => 0,
    }
}

/// The generation after the pair's last one.
fn next_generation(last: Option<SubRow>) -> u32
    requires { generation_in (option_map seen_in last) < 2 ^ 32 - 1 }
    ensures { result ≡ generation_in (option_map seen_in last) + 1 }
{
    match last {
        Some(row) => row.generation + 1,
        None => 1,
    }
}

/// The pair's row.
fn find(rows: &[Option<SubRow>], consumer: StageNo, producer: StageNo) -> Option<SubRow>
    ensures { option_map seen_in result ≡ row_at (rows_of rows.now) consumer producer }
{
    if producer.0 > LAST_STAGE {
        return None;
    }
    let at = consumer.0 as usize * STRIDE + producer.0 as usize;
    if at < rows.len() { rows[at] } else { None }
}

/// Whether an ask is due on the pair's last subscription: none where it is closed.
fn is_due(row: Option<SubRow>) -> bool
    ensures { result ≡ has_due_in (option_map seen_in row) }
{
    match row {
        Some(row) => row.live && row.demand.due() > 0,
        None => false,
    }
}

/// On how many rows an ask is due, once one on which it was due or not has become one on which it is or not.
fn recount(due: u32, was: bool, is: bool) -> u32
    requires some { was ≡ true → is ≡ false → 1 ≤ due }
    requires few { was ≡ false → is ≡ true → due < CONSUMERS * STRIDE }
    ensures { result + (if was then 1 else 0) ≡ due + (if is then 1 else 0) }
{
    match (was, is) {
        (true, false) => due - 1,
        (false, true) => due + 1,
        _ => due,
    }
}

/// Writes the pair's row, and counts it where an ask is due on it.
fn put(
    rows: &mut [Option<SubRow>],
    due: &mut u32,
    consumer: StageNo,
    producer: StageNo,
    row: SubRow,
)
    requires sized { length rows.old ≡ CONSUMERS * STRIDE }
    requires within { slot_of consumer producer < length rows.old }
    requires producer_in_range { producer.0 ≤ LAST_STAGE }
    requires counted { due_rows (rows_of rows.old) ≡ due.old }
    ensures counted { due_rows (rows_of rows.new) ≡ due.new }
    ensures put { IsPut (rows_of rows.old) (rows_of rows.new) consumer producer (seen_in row) }
    ensures live { live_rows (rows_of rows.new) + (if live_in (row_at (rows_of rows.old) consumer producer) then 1 else 0)
        ≡ live_rows (rows_of rows.old) + (if row.live then 1 else 0) }
{
    let at = consumer.0 as usize * STRIDE + producer.0 as usize;
    let was = is_due(rows[at]);
    rows[at] = Some(row);
    *due = recount(*due, was, is_due(Some(row)));
}

/// The open demand of the pair's last subscription: 0 where it is closed.
fn open_demand(row: Option<SubRow>) -> u32
    ensures { result ≡ open_in (option_map seen_in row) }
{
    match row {
        Some(row) if row.live => row.demand.left(),
        _ => 0,
    }
}

/// The open demand on a producer of the consumers below this number.
fn room_to(rows: &[Option<SubRow>], producer: StageNo, consumers: u16) -> u64
    ensures { result ≡ room_to_in (rows_of rows.now) producer consumers }
{
    let mut room = 0;
    for consumer in 0..consumers {
        room += open_demand(find(rows, StageNo(consumer), producer)) as u64;
    }
    room
}
