//! Workers in threads.

ghost use Rattle.std.specs.{Prelude.{◌≡◌, ◌<◌, ◌≤◌, [], IfOk, IfErr}, Thread.{IsSend, IsSync}};
ghost use Rattle.pipeline_turn.specs.Seats.{IsIdle, IsSameSeat};

use crate::shift::Shift;
use crate::worker::work;
use pipeline_turn::{Seat, Turn};
use std::alloc::{AllocError, Global};
use std::sync::Wait;
use std::thread::{Threads, join};

/// One worker, with the seat by value, as a thread takes it.
fn work_as<H: Shift, R: Wait>(rt: &R, alloc: Global, turn: &Turn<H>, mut seat: Seat<H>) -> Seat<H>
    requires of_this_turn { seat.turn ≡ turn.now.identity }
    requires idle { IsIdle seat }
    ensures same { IsSameSeat seat result }
    ensures idle { IsIdle result }
{
    work(rt, alloc, turn, &mut seat);
    seat
}

/// As many workers as `more` and one, each in a thread.
fn all<H: Shift + Send, R: Threads + Wait + Sync>(
    rt: &R,
    alloc: Global,
    turn: &Turn<H>,
    mut seat: Seat<H>,
    more: u16,
) -> Seat<H>
    requires of_this_turn { seat.turn ≡ turn.now.identity }
    requires idle { IsIdle seat }
    requires parts { more < seat.parts }
    ensures same { IsSameSeat seat result }
    ensures idle { IsIdle result }
{
    if more == 0 {
        return work_as(rt, alloc, turn, seat);
    }
    let other = turn.split(&mut seat);
    let rest = more - 1;
    let (mut seat, other) = join(
        rt,
        move || -> Seat<H>
            requires sync { IsSync R.row }
            requires send { IsSend H.row }
            requires of_this_turn { seat.turn ≡ turn.now.identity }
            requires idle { IsIdle seat }
            requires parts { rest < seat.parts }
            ensures same { IsSameSeat seat result }
            ensures idle { IsIdle result }
        { all(rt, alloc, turn, seat, rest) },
        move || work_as(rt, alloc, turn, other),
    );
    turn.join(&mut seat, other);
    seat
}

/// Has so many workers work on the value, each in a thread. It comes back, with nothing away from it, once all have ended. Where
/// memory is wanting, none has begun.
pub fn run_shifts<H: Shift + Send, R: Threads + Wait + Sync>(
    rt: &R,
    alloc: Global,
    workers: u16,
    value: H,
) -> Result<H, (H, AllocError)>
    requires some { 1 ≤ workers }
    requires stems { H.stems (H.start value) value }
    requires none_away { H.away value ≡ [] }
    ensures stems { IfOk result (λ r. H.stems (H.start value) r) }
    ensures none_away { IfOk result (λ r. H.away r ≡ []) }
    ensures value_returned { IfErr result (λ refused. refused.0 ≡ value) }
{
    let (turn, seat) = Turn::new(alloc, value, u32::from(workers))?;
    let seat = all(rt, alloc, &turn, seat, workers - 1);
    Ok(turn.finish(seat))
}
