//! What is wrong with a run of a made case: the slow machine judges its journal.

use super::case::Case;
use super::judge::{Came, Counts, counts_of, fault_in_ends, fault_in_texts, parts_of};
use super::rates::fault_in_rate;
use super::streams::{fault_in_streams, streams_in};
use pipe_config::read_topology;
use pipe_replay::replay_plain;
use pipe_types::message::{Loss, Outcome, Place};
use pipe_types::state::{Life, PlaceRow, PlainState};
use pipe_types::step::Step;
use std::alloc::{AllocError, Global};

/// How many places of the slow machine have each end.
#[derive(Clone, Copy)]
struct Ends {
    successful: usize,
    failed: usize,
    killed: usize,
    overflows: usize,
}

fn ends_of(places: &[PlaceRow]) -> Ends {
    let mut ends = Ends {
        successful: 0,
        failed: 0,
        killed: 0,
        overflows: 0,
    };
    for row in places {
        match row.place {
            Place::Acked(Outcome::Successful) => ends.successful = ends
                .successful
                .saturating_add(1),
            Place::Acked(Outcome::Failed(_)) => ends.failed = ends.failed.saturating_add(1),
            Place::Lost(Loss::Killed(_, _, _)) => ends.killed = ends.killed.saturating_add(1),
            Place::Lost(Loss::Overflow(_)) => ends.overflows = ends.overflows.saturating_add(1),
            Place::Waiting(_)
            | Place::Inbox(_)
            | Place::Running(_)
            | Place::Gathered(_)
            | Place::InBatch(_) => {}
        }
    }
    ends
}

/// How many incarnations there were behind the first ones.
fn restarts_of(lives: &[Life]) -> usize {
    let mut count: usize = 0;
    for life in lives {
        count = count.saturating_add((life.incarnation as usize).saturating_sub(1));
    }
    count
}

/// What does not hold of these, or nothing: the state of the slow machine has the counts of the report, and nothing is left in
/// it.
fn fault_in_state(state: &PlainState, counts: Counts) -> &'static str {
    let places = state.places.as_slice();
    let ends = ends_of(places);
    if places.len() != counts.accepted {
        "places"
    } else if ends.successful != counts.successful || ends.failed != counts.failed {
        "acknowledged places"
    } else if ends.killed != counts.killed || ends.overflows != counts.overflows {
        "lost places"
    } else if restarts_of(state.lives.as_slice()) != counts.restarts {
        "incarnations"
    } else if state.halted != (counts.halts == 1) {
        "halted"
    } else if !state.draining && !state.halted {
        "not at its end"
    } else {
        ""
    }
}

/// What is wrong by the slow machine, or nothing.
fn fault_by_steps(
    alloc: Global,
    case: &Case,
    steps: &[Step],
    counts: Counts,
) -> Result<&'static str, AllocError> {
    let Ok(topology) = read_topology(alloc, case.text("file").as_bytes()) else {
        return Ok("no accepted file");
    };
    let rate = fault_in_rate(alloc, case, &topology, steps)?;
    match replay_plain(alloc, &topology, steps)? {
        Some(_) if rate != "" => Ok(rate),
        Some(state) => Ok(fault_in_state(&state, counts)),
        None => Ok("not legal"),
    }
}

/// What is wrong with the run, or nothing: its counts add up, and the slow machine accepts its journal with these counts. A calm
/// run has no crashes and no control, and so many lines that the slow machine would be too slow; so has one whose case lists
/// sources, whose lines are compared instead.
pub fn fault_in(
    alloc: Global,
    calm: bool,
    case: &Case,
    came: Came<'_>,
    steps: &[Step],
) -> Result<&'static str, AllocError> {
    let Some(told) = parts_of(came.out) else {
        return Ok("no report");
    };
    let counts = counts_of(told.report);
    let fault = fault_in_texts(calm, case, came, told, counts);
    let ends = fault_in_ends(alloc, told, counts)?;
    let whole = counts.faults == 0 && told.report.ends_with("\nend sources\n");
    if fault != "" {
        Ok(fault)
    } else if ends != "" || calm {
        Ok(ends)
    } else if streams_in(case) > 0 {
        fault_in_streams(alloc, case, whole, steps)
    } else {
        fault_by_steps(alloc, case, steps, counts)
    }
}
