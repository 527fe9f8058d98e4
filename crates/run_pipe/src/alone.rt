//! A run by one worker.

ghost use Rattle.std.specs.Prelude.{◌≡◌, ◌≤◌, []};
ghost use Rattle.run_pipe.specs.{Runs.{RanToEnd, IsIdleWithin}, Seen.{PipeState, state_of, away_of}, Stems.{Stems}};

use crate::pipe::Pipe;
use crate::shown::Shown;
use pipe_edges::{ByteSource, Clock};
use stage_bodies::Works;
use stage_workers::Round;
use std::alloc::Global;
use std::sync::Wait;

/// Has one worker hold the pipe and do its jobs until the pipe has ended. Where the topology has no idle limit, it may wait for its
/// sources for ever.
pub fn run_here<R: Wait, B: Works, S: ByteSource, C: Clock, W: Shown>(
    rt: &R,
    alloc: Global,
    pipe: &mut Pipe<B, S, C, W>,
)
    requires stems { (opened : PipeState) × Stems opened (state_of pipe.old) }
    requires none_away { away_of (state_of pipe.old) ≡ [] }
    ensures ran { RanToEnd (state_of pipe.old) (state_of pipe.new) }
    // Where there is an idle limit, no row of quiet answers grows beyond it.
    ensures rows { 1 ≤ pipe.old.topology.idle_limit → IsIdleWithin (state_of pipe.old) (state_of pipe.new) }
{
    if pipe.has_idle_limit() {
        run_to_end(alloc, pipe);
    } else {
        run_on(rt, alloc, pipe);
    }
}

/// A run that returns: the topology has an idle limit, and each hold leaves fewer.
pub fn run_to_end<B: Works, S: ByteSource, C: Clock, W: Shown>(
    alloc: Global,
    pipe: &mut Pipe<B, S, C, W>,
)
    requires limit { 1 ≤ pipe.old.topology.idle_limit }
    requires stems { (opened : PipeState) × Stems opened (state_of pipe.old) }
    requires none_away { away_of (state_of pipe.old) ≡ [] }
    ensures ran { RanToEnd (state_of pipe.old) (state_of pipe.new) }
    ensures rows { IsIdleWithin (state_of pipe.old) (state_of pipe.new) }
{
    let mut brought = None;
    loop {
        match pipe.hold(brought) {
            Round::Job(load) => brought = Some(load.work(alloc)),
            Round::Again => brought = None,
            Round::Waits => unreachable!(),
            Round::Ended => return,
        }
    }
}

/// A run that may wait for its sources for ever.
fn run_on<R: Wait, B: Works, S: ByteSource, C: Clock, W: Shown>(
    rt: &R,
    alloc: Global,
    pipe: &mut Pipe<B, S, C, W>,
)
    requires stems { (opened : PipeState) × Stems opened (state_of pipe.old) }
    requires none_away { away_of (state_of pipe.old) ≡ [] }
    ensures ran { RanToEnd (state_of pipe.old) (state_of pipe.new) }
{
    let mut brought = None;
    for _ in rt.forever() {
        match pipe.hold(brought) {
            Round::Job(load) => brought = Some(load.work(alloc)),
            Round::Again => brought = None,
            Round::Waits => unreachable!(),
            Round::Ended => return,
        }
    }
    unreachable!()
}
