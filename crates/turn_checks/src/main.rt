//! The turn by its contracts alone: workers in threads, each with a seat, over any value that gives jobs out with what they
//! need and has it back with the answer.
//!
//! Every condition of a call of the turn is met here from what the calls before it say, so that no condition asks what
//! a worker cannot know. A worker that finds no job waits for news. The cases are lines of standard input (`checks.rt`), and
//! what each writes is the same whatever the schedule.
#![tactic(auto)]

mod checks;
mod logbook;
mod tokens;
mod workers;

use checks::run_case;
use std::io;

fn main(rt: HostRuntime) -> io::Result<()> {
    for line in rt.lines(rt.alloc()) {
        let line = line?;
        run_case(&rt, &rt, line.as_str())?;
    }
    Ok(())
}
