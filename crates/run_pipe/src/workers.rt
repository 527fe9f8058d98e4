//! A run by workers.

ghost use Rattle.std.specs.Prelude.{◌≡◌, ◌≤◌, [], IsSomeAnd};
ghost use Rattle.run_pipe.specs.{Runs.{HasRun}, Seen.{state_of, away_of}, Stems.{Stems}};

use crate::alone::run_here;
use crate::pipe::Pipe;
use crate::shown::Shown;
use pipe_edges::{ByteSource, Clock};
use stage_bodies::Works;
use stage_workers::run_shifts;
use std::alloc::Global;
use std::sync::Wait;
use std::thread::Threads;

/// Has so many workers run the pipe, each in a thread, until the pipeline is drained or halted; one alone runs it here. The pipe
/// tells how it ended. Where that is want of memory, the journal holds what was appended so far, and the answers of jobs that were
/// out then are lost. Where the topology has no idle limit, it may wait for its sources for ever.
pub fn run_workers<
    B: Works + Send,
    S: ByteSource + Send,
    C: Clock + Send,
    W: Shown + Send,
    R: Threads + Wait + Sync,
>(rt: &R, alloc: Global, workers: u16, pipe: Pipe<B, S, C, W>) -> Pipe<B, S, C, W>
    requires some { 1 ≤ workers }
    requires stems { Stems (state_of pipe) (state_of pipe) }
    requires none_away { away_of (state_of pipe) ≡ [] }
    ensures ran { IsSomeAnd result.end (HasRun (state_of pipe) (state_of result)) }
{
    let mut pipe = pipe;
    if workers == 1 {
        run_here(rt, alloc, &mut pipe);
        return pipe;
    }
    match run_shifts(rt, alloc, workers, pipe) {
        Ok(mut pipe) => {
            run_here(rt, alloc, &mut pipe);
            pipe
        }
        Err((mut pipe, error)) => {
            pipe.end_without_memory(error);
            pipe
        }
    }
}
