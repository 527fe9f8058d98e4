//! What is wrong with the rate of a run of a made case: the records that each interval brought, counted from the journal.

use super::case::Case;
use pipe_types::step::{LateAnswer, Step};
use pipe_types::topology::{Rate, Role, Topology};
use std::alloc::{AllocError, Global};

/// A fetch: which incarnation of which stage made it and in which interval, how many records it brought, and whether nothing
/// was ready.
#[derive(Clone, Copy)]
struct Fetch {
    stage: u16,
    incarnation: u32,
    interval: u64,
    brought: usize,
    quiet: bool,
}

/// What does not hold of these, or nothing: no interval brings more than is allowed, and no producer more than its share; and
/// where the sources of the case are always ready, nothing is ready of a producer only behind its share.
pub fn fault_in_rate(
    alloc: Global,
    case: &Case,
    topology: &Topology,
    steps: &[Step],
) -> Result<&'static str, AllocError> {
    let Some(rate) = &topology.rate else {
        return Ok("");
    };
    let fetches = fetches_in(alloc, rate.interval, steps)?;
    let ready = !case.text("ready").is_empty();
    for (at, fetch) in fetches.as_slice().iter().enumerate() {
        let share = share_of(topology, rate, fetch.stage);
        if brought_in(&fetches, fetch.interval) > rate.allowed as usize {
            return Ok("brought in an interval");
        } else if brought_by(&fetches, fetches.len(), fetch) > share {
            return Ok("brought by a producer");
        } else if ready && fetch.quiet && brought_by(&fetches, at, fetch) < share {
            return Ok("held up with some left");
        }
    }
    Ok("")
}

fn fetches_in(alloc: Global, interval: u64, steps: &[Step]) -> Result<Vec<Fetch>, AllocError> {
    let mut fetches = Vec::new(alloc);
    let mut now: u64 = 0;
    for (at, step) in steps.iter().enumerate() {
        match step {
            Step::Tick { now: tick } => now = *tick,
            Step::Fetch { stage, .. } => fetches.push(Fetch {
                stage: stage.0,
                incarnation: incarnation_at(steps, at, stage.0),
                interval: now / interval.max(1),
                brought: 0,
                quiet: false,
            })?,
            Step::Accept { stage, records } => {
                let incarnation = incarnation_at(steps, at, stage.0);
                let count = records.as_slice().len();
                answer(&mut fetches, stage.0, incarnation, count, false);
            }
            Step::Quiet { stage } => {
                let incarnation = incarnation_at(steps, at, stage.0);
                answer(&mut fetches, stage.0, incarnation, 0, true);
            }
            Step::Late {
                stage,
                incarnation,
                answer: LateAnswer::Records(records),
                ..
            } => {
                let count = records.as_slice().len();
                answer(&mut fetches, stage.0, *incarnation, count, false);
            }
            _ => {}
        }
    }
    Ok(fetches)
}

/// Which incarnation of the stage makes the step at this place.
fn incarnation_at(steps: &[Step], at: usize, wanted: u16) -> u32 {
    let mut incarnation: u32 = 1;
    for (place, step) in steps.iter().enumerate() {
        match step {
            Step::Restart { stage } if place < at && stage.0 == wanted => {
                incarnation = incarnation.saturating_add(1);
            }
            _ => {}
        }
    }
    incarnation
}

/// Notes the answer to the last fetch of this incarnation.
fn answer(fetches: &mut Vec<Fetch>, stage: u16, incarnation: u32, brought: usize, quiet: bool) {
    let mut last = None;
    for (at, fetch) in fetches.as_slice().iter().enumerate() {
        if fetch.stage == stage && fetch.incarnation == incarnation {
            last = Some(at);
        }
    }
    match last {
        Some(at) if at < fetches.len() => {
            fetches[at].brought = brought;
            fetches[at].quiet = quiet;
        }
        _ => {}
    }
}

/// How many records all the producers have of the interval.
fn brought_in(fetches: &Vec<Fetch>, interval: u64) -> usize {
    let mut count: usize = 0;
    for fetch in fetches {
        if fetch.interval == interval {
            count = count.saturating_add(fetch.brought);
        }
    }
    count
}

/// How many records the producer of this fetch has of its interval, by the first so many fetches.
fn brought_by(fetches: &Vec<Fetch>, first: usize, wanted: &Fetch) -> usize {
    let mut count: usize = 0;
    for (at, fetch) in fetches.as_slice().iter().enumerate() {
        if at < first && fetch.stage == wanted.stage && fetch.interval == wanted.interval {
            count = count.saturating_add(fetch.brought);
        }
    }
    count
}

/// The share of the producer: the first ones get one more.
fn share_of(topology: &Topology, rate: &Rate, stage: u16) -> usize {
    let mut count: usize = 0;
    let mut before: usize = 0;
    for spec in topology.stages.as_slice() {
        if matches!(spec.role, Role::Producer) {
            count = count.saturating_add(1);
            if spec.no.0 < stage {
                before = before.saturating_add(1);
            }
        }
    }
    let allowed = rate.allowed as usize;
    let producers = count.max(1);
    let share = allowed / producers;
    if before < allowed % producers {
        share.saturating_add(1)
    } else {
        share
    }
}
