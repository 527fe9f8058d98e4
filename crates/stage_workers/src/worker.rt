//! A worker.

ghost use Rattle.std.specs.Prelude.{◌≡◌, ◌-◌, ◌≤◌, false, true, IfSome, nat_le};
ghost use Rattle.pipeline_turn.specs.Seats.{IsIdle, IsSameSeat};
ghost use Rattle.stage_workers.specs.{Rounds.{job_post, brought_post}, Holds.{post_after, Comes, after_round}};

use crate::habit::Habit;
use crate::shift::{Ahead, Round, Shift};
use pipe_types::numbers::Post;
use pipeline_turn::{Seat, Turn};
use std::alloc::Global;
use std::sync::Wait;
use std::time::Duration;

/// How long a worker that finds nothing to do sleeps at least before it takes the value again, in milliseconds.
const LEAST_MS: u64 = 10;

/// And at most.
const MOST_MS: u64 = 1_000;

/// What a worker does after it tried to take the value.
pub(crate) enum After<L, H> {
    /// The value was away. What the worker brings is not brought yet.
    Missed(Option<H>),
    /// It does this job.
    Job(L),
    /// It sleeps until there is other news than this count of it. Whether nothing but the time is new to it.
    Sleeps(u32, bool),
    /// It takes the value again.
    Again,
    /// It ends.
    Ends,
}

/// The post of the job that the worker goes away with.
fn job_for<H: Shift>(round: &Round<H::Load>) -> Option<Post>
    ensures { result ≡ job_post H.load_post round.now }
{
    match round {
        Round::Job(load) => Some(H::post(load)),
        Round::Waits => None,
        Round::Again => None,
        Round::Ended => None,
    }
}

/// Tells of what is left to do, as the worker goes away with a job. It wakes another for a job, and where little is left only as its
/// habit says; the news counts all the same, so that nobody sleeps long while there is any.
fn tell_ahead<H: Shift>(turn: &Turn<H>, seat: &mut Seat<H>, value: &H, habit: &mut Habit)
    requires of_this_turn { seat.old.turn ≡ turn.now.identity }
    requires holding { seat.old.holds ≡ true }
    ensures { seat.new ≡ seat.old }
{
    match value.ahead() {
        Ahead::Nothing => habit.forget(),
        Ahead::Little => {
            if habit.wakes(value.journal().len()) {
                turn.tell(seat);
            } else {
                turn.note(seat);
            }
        }
        Ahead::Job => turn.tell(seat),
    }
}

/// Tells another worker where there may be something to do for it: another job, or to end.
fn tell_of<H: Shift>(
    turn: &Turn<H>,
    seat: &mut Seat<H>,
    value: &H,
    round: &Round<H::Load>,
    habit: &mut Habit,
)
    requires of_this_turn { seat.old.turn ≡ turn.now.identity }
    requires holding { seat.old.holds ≡ true }
    ensures { seat.new ≡ seat.old }
{
    match round {
        Round::Job(_) => tell_ahead(turn, seat, value, habit),
        Round::Ended => turn.tell(seat),
        Round::Waits | Round::Again => habit.forget(),
    }
}

/// What a worker does after the round.
fn go_by<L, H>(round: Round<L>, news: u32, is_still: bool) -> After<L, H>
    ensures { result ≡ after_round round news is_still }
{
    match round {
        Round::Job(load) => After::Job(load),
        Round::Waits => After::Sleeps(news, is_still),
        Round::Again => After::Again,
        Round::Ended => After::Ends,
    }
}

/// One hold, where the value is at home.
fn hold<H: Shift>(
    turn: &Turn<H>,
    seat: &mut Seat<H>,
    brought: Option<H::Home>,
    habit: &mut Habit,
) -> After<H::Load, H::Home>
    requires of_this_turn { seat.old.turn ≡ turn.now.identity }
    requires free { seat.old.holds ≡ false }
    requires job { seat.old.job ≡ brought_post H.home_post brought }
    requires brought { IfSome brought (H.is_home_of seat.old.origin seat.old.seen) }
    ensures same { IsSameSeat seat.old seat.new }
    ensures free { seat.new.holds ≡ false }
    ensures job { seat.new.job ≡ post_after H.load_post H.home_post result }
    ensures comes { Comes (H.is_load_of seat.new.origin seat.new.seen) (H.is_home_of seat.new.origin seat.new.seen) result }
{
    let Some(mut value) = turn.take(seat) else {
        habit.misses();
        return After::Missed(brought);
    };
    let before = value.journal().len();
    habit.has_back(before);
    let round = value.round(brought);
    let is_still = is_reading(before, value.journal().len());
    tell_of(turn, seat, &value, &round, habit);
    let news = turn.news(seat);
    let job = job_for::<H>(&round);
    turn.give(seat, value, job);
    go_by(round, news, is_still)
}

/// Whether a hold added no step, or one, as it does where it finds nothing but a later time.
fn is_reading(before: u64, after: u64) -> bool
    ensures { result ≡ nat_le (after - before) 1 }
{
    after.saturating_sub(before) <= 1
}

/// How long a worker sleeps, in milliseconds, that has slept for so long since anything was new: an eighth of that, within bounds. So
/// a batch closes late by an eighth of its time limit or by the least sleep, and a silent day adds few readings of the clock.
fn sleep_after(slept: u64) -> u64
    ensures least { 10 ≤ result }
    ensures most { result ≤ 1000 }
{
    (slept / 8).clamp(LEAST_MS, MOST_MS)
}

/// Takes the value in turn, does the jobs that it goes away with, and ends where nothing is to do any more.
pub fn work<H: Shift, R: Wait>(rt: &R, alloc: Global, turn: &Turn<H>, seat: &mut Seat<H>)
    requires of_this_turn { seat.old.turn ≡ turn.now.identity }
    requires idle { IsIdle seat.old }
    ensures same { IsSameSeat seat.old seat.new }
    ensures idle { IsIdle seat.new }
{
    let mut brought = None;
    let mut heard = 0;
    let mut slept = 0;
    let mut habit = Habit::new();
    for _ in rt.forever() {
        let by_now = turn.news_by_now();
        match hold(turn, seat, brought, &mut habit) {
            // Who brings something waits for the value itself, and who does not for news, unless the value is soon at home: whoever
            // has it tells where there is something to do, and may have told just before.
            After::Missed(Some(home)) => {
                turn.rest(rt, seat);
                brought = Some(home);
            }
            After::Missed(None) => {
                if !turn.is_home_soon() {
                    turn.wait_for(rt, by_now, Duration::from_millis(LEAST_MS));
                }
                brought = None;
            }
            After::Job(load) => {
                slept = 0;
                brought = Some(H::run(alloc, load));
            }
            After::Sleeps(news, is_still) => {
                if news != heard || !is_still {
                    slept = 0;
                }
                let ms = sleep_after(slept);
                turn.wait_for(rt, news, Duration::from_millis(ms));
                heard = news;
                slept = slept.saturating_add(ms);
                brought = None;
            }
            After::Again => brought = None,
            After::Ends => return,
        }
    }
    unreachable!()
}
