//! As many workers as there are seats.
ghost use Rattle.std.specs.{Prelude.{◌≡◌, ◌<◌, ◌≤◌, false, true, None, [], IfOk, IfErr}, Thread.{IsSend, IsSync}};
ghost use Rattle.pipe_model.specs.Begins.{BeginsWith};
ghost use Rattle.pipeline_turn.specs.Seats.{IsIdle, IsSameSeat};
ghost use Rattle.turn_checks.specs.Tokens.{brought_post, entry_post};

use crate::logbook::{Entry, Logbook, Logs};
use crate::tokens::Job;
use pipeline_turn::{Seat, Turn};
use std::alloc::{AllocError, Global};
use std::sync::Wait;
use std::sync::atomic::{AtomicU64, Ordering};
use std::thread::{Threads, join};
use std::time::Duration;

/// What came of one hold: the entry, the length of the journal that was given, and the count of news then.
struct Given {
    entry: Entry,
    steps: u64,
    news: u32,
}

/// Notes the time in the logbooks of two turns, where both are at home. The answer says whether they were.
pub fn tick_both(
    first: &Turn<Logbook>,
    mine: &mut Seat<Logbook>,
    second: &Turn<Logbook>,
    theirs: &mut Seat<Logbook>,
    now: u64,
) -> bool
    requires of_these_turns { (mine.old.turn ≡ first.now.identity) × (theirs.old.turn ≡ second.now.identity) }
    requires idle { IsIdle mine.old × IsIdle theirs.old }
    ensures same { IsSameSeat mine.old mine.new × IsSameSeat theirs.old theirs.new }
    ensures idle { IsIdle mine.new × IsIdle theirs.new }
{
    let Some(mut book) = first.take(mine) else {
        return false;
    };
    let Some(mut other) = second.take(theirs) else {
        first.give(mine, book, None);
        return false;
    };
    book.tick(now);
    other.tick(now);
    first.give(mine, book, None);
    second.give(theirs, other, None);
    true
}

/// The count of news before and after the seat has told of some. None where the value was away.
pub fn tell_once<H: Logs>(turn: &Turn<H>, seat: &mut Seat<H>) -> Option<(u32, u32)>
    requires of_this_turn { seat.old.turn ≡ turn.now.identity }
    requires idle { IsIdle seat.old }
    ensures same { IsSameSeat seat.old seat.new }
    ensures idle { IsIdle seat.new }
{
    let value = turn.take(seat)?;
    let before = turn.news(seat);
    turn.tell(seat);
    let after = turn.news(seat);
    turn.give(seat, value, None);
    Some((before, after))
}

/// Tells the others that a token is back, if one is.
fn tell_of<H: Logs>(turn: &Turn<H>, seat: &mut Seat<H>, back: bool)
    requires of_this_turn { seat.old.turn ≡ turn.now.identity }
    requires holding { seat.old.holds ≡ true }
    ensures { seat.new ≡ seat.old }
{
    if back {
        turn.tell(seat);
    }
}

/// One hold. The job comes back where the value was away.
fn hold<H: Logs>(
    turn: &Turn<H>,
    seat: &mut Seat<H>,
    brought: Option<Job>,
) -> Result<Given, Option<Job>>
    requires of_this_turn { seat.old.turn ≡ turn.now.identity }
    requires free { seat.old.holds ≡ false }
    requires job { seat.old.job ≡ brought_post brought }
    ensures same { IsSameSeat seat.old seat.new }
    ensures free { seat.new.holds ≡ false }
    ensures job { IfOk result (λ given. seat.new.job ≡ entry_post given.entry) }
    ensures kept { IfErr result (λ kept. seat.new.job ≡ brought_post kept) }
{
    let Some(mut value) = turn.take(seat) else {
        return Err(brought);
    };
    let back = brought.is_some();
    let entry = value.log(brought);
    let steps = value.journal().len();
    let news = turn.news(seat);
    tell_of(turn, seat, back);
    turn.give(seat, value, entry.post());
    Ok(Given { entry, steps, news })
}

/// Takes a job along and brings it back, `rounds` times, and waits for news while no job can be had. The answer is the
/// length of the journal that the seat gave at its last hold.
fn work<H: Logs, R: Wait>(rt: &R, turn: &Turn<H>, seat: &mut Seat<H>, rounds: u32) -> u64
    requires of_this_turn { seat.old.turn ≡ turn.now.identity }
    requires idle { IsIdle seat.old }
    ensures same { IsSameSeat seat.old seat.new }
    ensures idle { IsIdle seat.new }
{
    let mut brought = None;
    let mut left = rounds;
    for _ in rt.forever() {
        match hold(turn, seat, brought) {
            Err(job) => {
                brought = job;
                turn.rest(rt, seat);
            }
            Ok(Given { entry, steps, news }) => match entry {
                Entry::Out(job) => brought = Some(job.run()),
                Entry::Idle => {
                    brought = None;
                    turn.wait_for(rt, news, Duration::from_secs(1));
                }
                Entry::Done => {
                    brought = None;
                    left = left.saturating_sub(1);
                    if left == 0 {
                        return steps;
                    }
                }
            },
        }
    }
    unreachable!()
}

/// One worker, with the seat by value, as a thread takes it.
fn work_as<H: Logs, R: Wait>(
    rt: &R,
    turn: &Turn<H>,
    mut seat: Seat<H>,
    place: u16,
    rounds: u32,
    lengths: &[AtomicU64],
) -> Seat<H>
    requires of_this_turn { seat.turn ≡ turn.now.identity }
    requires idle { IsIdle seat }
    ensures same { IsSameSeat seat result }
    ensures idle { IsIdle result }
{
    let steps = work(rt, turn, &mut seat, rounds);
    if let Some(length) = lengths.get(usize::from(place)) {
        length.store(steps, Ordering::SeqCst);
    }
    seat
}

/// As many workers as `more` and one, each in a thread.
fn all<H: Logs + Send, R: Threads + Wait + Sync>(
    rt: &R,
    turn: &Turn<H>,
    mut seat: Seat<H>,
    more: u16,
    rounds: u32,
    lengths: &[AtomicU64],
) -> Seat<H>
    requires of_this_turn { seat.turn ≡ turn.now.identity }
    requires idle { IsIdle seat }
    requires parts { more < seat.parts }
    ensures same { IsSameSeat seat result }
    ensures idle { IsIdle result }
{
    if more == 0 {
        return work_as(rt, turn, seat, 0, rounds, lengths);
    }
    let other = turn.split(&mut seat);
    let rest = more - 1;
    let (mut seat, other) = join(
        rt,
        move || -> Seat<H>
            requires sync { IsSync R.row }
            requires send { IsSend H.row }
            requires of_this_turn { seat.turn ≡ turn.now.identity }
            requires idle { IsIdle seat }
            requires parts { rest < seat.parts }
            ensures same { IsSameSeat seat result }
            ensures idle { IsIdle result }
        { all(rt, turn, seat, rest, rounds, lengths) },
        move || work_as(rt, turn, other, more, rounds, lengths),
    );
    turn.join(&mut seat, other);
    seat
}

/// Has `seats` workers take a job along and bring it back, `rounds` times each, every worker in a thread and with a seat of
/// its own. Each leaves at its place in `lengths` the length of the journal that it gave at its last hold. The value that
/// comes back stems from what it was, and no token is away from it.
pub fn run<H: Logs + Send, R: Threads + Wait + Sync>(
    rt: &R,
    alloc: Global,
    value: H,
    seats: u16,
    rounds: u32,
    lengths: &[AtomicU64],
) -> Result<H, (H, AllocError)>
    requires some { 1 ≤ seats }
    requires stems { H.stems (H.start value) value }
    requires none_away { H.away value ≡ [] }
    ensures stems { IfOk result (λ r. H.stems (H.start value) r) }
    ensures none_away { IfOk result (λ r. H.away r ≡ []) }
    ensures err { IfErr result (λ e. e.0 ≡ value) }
{
    let (turn, seat) = Turn::new(alloc, value, u32::from(seats))?;
    let seat = all(rt, &turn, seat, seats - 1, rounds, lengths);
    Ok(turn.finish(seat))
}
