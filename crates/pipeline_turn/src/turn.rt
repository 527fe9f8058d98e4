//! The turn itself, and the calls over it.
ghost use Rattle.std.specs.Prelude.{◌≡◌, ◌<◌, ◌≤◌, ◌+◌, ◌-◌, ◌≢◌, true, false, Some, None, IfSome, IfNone, IfOk, IfErr, IsSome, [], Contains};
ghost use Rattle.pipe_types.specs.declared.numbers.Post.{Post};
ghost use Rattle.pipe_model.specs.{Posts.{is_out}, Begins.{BeginsWith}};
ghost use Rattle.pipeline_turn.specs.{declared.view.Handed.{Handed}, Jobs.{IsUnanswered, IsUndone, IsOwnJob, AreAway, longer}, Seats.{IsIdle}};

use crate::held::Held;
use crate::rule::{Give, OneHolder, Parting, Settle, Take, Tell, Terms};
use crate::seat::Seat;
use crate::view::{Handed, View};
use atomic_table::{Refused, Table};
use pipe_types::numbers::Post;
use std::alloc::{AllocError, AllocFailed, Global};
use std::marker::Model;
use std::snapshot::Snapshot;
use std::sync::Wait;
use std::time::Duration;

/// How often a worker looks for the value before it sleeps.
const LOOKS: u32 = 20_000;

/// A word that is 1 while the value is out with a seat and 0 while it is at home, a word that counts news, one that counts
/// the workers that sleep until the value is at home, and the slot where it lies then. Contracts see a turn as a `TurnView`.
pub struct Turn<V: Held> {
    table: Table<Option<Handed<V>>, View<V::Start>, Terms<V>, OneHolder<V>, Global>,
}

impl<V: Held> Model for Turn<V> {
    ghost use Rattle.pipeline_turn.specs.Seats.{TurnView, HasOneSlot};

    ghost Value = { TurnView };

    ghost view = { λ t. record { identity = t.table.shared.table_id; parts = t.table.shared.key.parts } };

    ghost invariant = { λ t. HasOneSlot t.table.shared.table_id };
}

impl<V: Held> Turn<V> {
    /// The turn with the value at home, from which nothing may be away, and the first seat, which has all parts. The value
    /// comes back where memory is wanting.
    pub fn new(alloc: Global, value: V, parts: u32) -> Result<(Turn<V>, Seat<V>), (V, AllocError)>
        requires parts { 1 ≤ parts }
        requires stems { V.stems (V.start value) value }
        requires none_away { V.away value ≡ [] }
        ensures parts { IfOk result (λ made. made.0.parts ≡ parts) }
        ensures seat { IfOk result (λ made. made.1 ≡ record { turn = made.0.identity; parts = parts; origin = V.start value; seen = []; away = []; job = None; holds = false; misses = 0 }) }
        ensures value_returned { IfErr result (λ refused. refused.0 ≡ value) }
    {
        let terms = Terms {
            parts,
            opening: Snapshot::of(&value),
        };
        let mut slots = Vec::new(alloc);
        if let Err(AllocFailed { value }) = slots.push(Some(Handed { value, job: None })) {
            slots.destroy_empty();
            return Err((of_full(value), AllocError));
        }
        match Table::new(alloc, &[0, 0, 0], slots, &terms) {
            Ok((table, inner)) => Ok((Turn { table }, Seat { inner })),
            Err(Refused { mut slots }) => {
                let value = of_full(slots.pop().unwrap());
                slots.destroy_empty();
                Err((value, AllocError))
            }
        }
    }

    /// Takes the value, by one exchange. None exactly where this exchange found it away, which the seat counts as a
    /// miss.
    pub fn take(&self, seat: &mut Seat<V>) -> Option<V>
        requires of_this_turn { seat.old.turn ≡ self.now.identity }
        requires without { seat.old.holds ≡ false }
        ensures missed { IfNone result (seat.new ≡ record seat.old { misses = seat.old.misses + 1 }) }
        ensures taken { IfSome result (λ value. seat.new ≡ record seat.old { seen = V.steps value; away = V.away value; holds = true }) }
        ensures stems { IfSome result (λ value. V.stems seat.old.origin value) }
        ensures begins { IfSome result (λ value. BeginsWith (V.steps value) seat.old.seen) }
        ensures job_undone { IfSome result (λ value. IfSome seat.old.job (λ post. IsUndone (V.steps value) seat.old.seen post)) }
        ensures job_away { IfSome result (λ value. IfSome seat.old.job (λ post. Contains (V.away value) post)) }
    {
        if self.table.shared.swap::<Take<V>>(&mut seat.inner, 0, 1) != 0 {
            return None;
        }
        let Handed { value, job: _ } = self
            .table
            .shared
            .exchange(&mut seat.inner, 0, None)
            .unwrap();
        Some(value)
    }

    /// Gives the value back, by one exchange, and wakes one worker that rests, if one does. With a job the seat goes away to do it, and
    /// the job's post has to be away from the value, as are those of the other seats that are away, and no more.
    pub fn give(&self, seat: &mut Seat<V>, value: V, job: Option<Post>)
        requires of_this_turn { seat.old.turn ≡ self.now.identity }
        requires holding { seat.old.holds ≡ true }
        requires stems { V.stems seat.old.origin value }
        requires begins { BeginsWith (V.steps value) seat.old.seen }
        requires others_unanswered { (post : Post) → is_out seat.old.seen post ≡ true → seat.old.job ≢ Some post → IsUnanswered (V.steps value) seat.old.seen post }
        requires own_job { IfSome job (λ post. IsOwnJob seat.old.job seat.old.seen (V.steps value) post) }
        requires away { AreAway seat.old.job job seat.old.away (V.away value) }
        ensures { seat.new ≡ record seat.old { seen = V.steps value; job = job; holds = false } }
    {
        let was = self
            .table
            .shared
            .exchange(&mut seat.inner, 0, Some(Handed { value, job }));
        let None = was else { unreachable!() };
        self.table.shared.swap::<Give<V>>(&mut seat.inner, 0, 0);
        if self.table.shared.peek(2) > 0 {
            self.table.shared.wake_one(0);
        }
    }

    /// Waits while the value is away: looks for it for a while, since to fall asleep and be woken takes longer than most holds, and
    /// then sleeps until a `give` wakes it. It may also return for no reason.
    ///
    /// A sleeper is counted before it looks at the place for the last time, as it falls asleep, and a `give` looks at the count
    /// behind its exchange. So one of the two sees the other.
    pub fn rest<R: Wait>(&self, rt: &R, seat: &mut Seat<V>)
        requires of_this_turn { seat.old.turn ≡ self.now.identity }
        ensures { seat.new ≡ seat.old }
    {
        if self.is_home_soon() {
            return;
        }
        self.table.shared.fetch_add::<Tell>(&mut seat.inner, 2, 1);
        self.table.shared.park(rt, 0, 1);
        self.table.shared.fetch_sub::<Tell>(&mut seat.inner, 2, 1);
    }

    /// Whether the value is seen at home within some tens of microseconds.
    pub fn is_home_soon(&self) -> bool {
        for _ in 0..LOOKS {
            if self.table.shared.peek(0) == 0 {
                return true;
            }
        }
        false
    }

    /// Says that there is news in the value that the seat holds: counts it, and wakes one worker that waits for news.
    pub fn tell(&self, seat: &mut Seat<V>)
        requires of_this_turn { seat.old.turn ≡ self.now.identity }
        requires holding { seat.old.holds ≡ true }
        ensures { seat.new ≡ seat.old }
    {
        self.note(seat);
        self.table.shared.wake_one(1);
    }

    /// The same, and wakes nobody: who waits for news sees it behind its time.
    pub fn note(&self, seat: &mut Seat<V>)
        requires of_this_turn { seat.old.turn ≡ self.now.identity }
        requires holding { seat.old.holds ≡ true }
        ensures { seat.new ≡ seat.old }
    {
        self.table.shared.fetch_add::<Tell>(&mut seat.inner, 1, 1);
    }

    /// The count of news, by its low 32 bits, which a worker that finds nothing to do reads before it gives the value back
    /// and waits. Nobody else holds the value between the reading and the giving, and who tells holds it: so what was told
    /// before is in the value that was looked through, and what is told after that changes the count, before the worker
    /// sleeps or while it does. No news is missed but where 2^32 are told in between.
    pub fn news(&self, seat: &Seat<V>) -> u32
        requires of_this_turn { seat.now.turn ≡ self.now.identity }
        requires holding { seat.now.holds ≡ true }
    {
        self.news_by_now()
    }

    /// The same count, for a worker that does not hold the value. What was told before may not be in the value that it takes next:
    /// who told holds the value still, or gave it back.
    pub fn news_by_now(&self) -> u32 {
        (self.table.shared.peek(1) & 0xffff_ffff) as u32
    }

    /// Sleeps while the count of news is as it was read, until a `tell` wakes it. It may also return for no reason.
    pub fn wait<R: Wait>(&self, rt: &R, news: u32) {
        self.table.shared.park(rt, 1, news);
    }

    /// The same, for no longer than `dur`.
    pub fn wait_for<R: Wait>(&self, rt: &R, news: u32, dur: Duration) {
        self.table.shared.park_timeout(rt, 1, news, dur);
    }

    /// A new seat with one part of this one's, for another worker.
    pub fn split(&self, seat: &mut Seat<V>) -> Seat<V>
        requires of_this_turn { seat.old.turn ≡ self.now.identity }
        requires idle { IsIdle seat.old }
        requires parts { 2 ≤ seat.old.parts }
        ensures left { seat.new ≡ record seat.old { parts = seat.old.parts - 1 } }
        ensures new { result ≡ record seat.old { parts = 1; misses = 0 } }
    {
        let inner = self.table.shared.split_seat::<Parting>(&mut seat.inner);
        Seat { inner }
    }

    /// Takes in the other seat, with its parts and all that it had seen.
    pub fn join(&self, seat: &mut Seat<V>, other: Seat<V>)
        requires of_this_turn { (seat.old.turn ≡ self.now.identity) × (other.turn ≡ self.now.identity) }
        requires idle { IsIdle seat.old × IsIdle other }
        ensures joined { seat.new ≡ record seat.old { parts = seat.old.parts + other.parts; seen = longer seat.old.seen other.seen } }
        ensures begins { BeginsWith seat.new.seen seat.old.seen × BeginsWith seat.new.seen other.seen }
    {
        self.table
            .shared
            .join_seat::<Parting>(&mut seat.inner, other.into_inner());
        self.table.shared.load::<Settle>(&mut seat.inner, 0);
    }

    /// Ends the turn, and gives the value back to the seat that has all parts. Nothing is away from it.
    pub fn finish(self, seat: Seat<V>) -> V
        requires of_this_turn { seat.turn ≡ self.identity }
        requires idle { IsIdle seat }
        requires all_parts { seat.parts ≡ self.parts }
        ensures stems { V.stems seat.origin result }
        ensures begins { BeginsWith (V.steps result) seat.seen }
        ensures none_away { V.away result ≡ [] }
    {
        let Turn { table } = self;
        let mut closed = table.close_with(seat.into_inner());
        let value = of_full(closed.take(0));
        closed.free();
        value
    }
}

fn of_full<V>(slot: Option<Handed<V>>) -> V
    requires { IsSome slot }
    ensures { IfSome slot (λ handed. result ≡ handed.value) }
{
    let Handed { value, job: _ } = slot.unwrap();
    value
}
