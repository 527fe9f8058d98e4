//! The demand of one subscription.
//!
//! Begins with `MIN:MAX`. The acts are `ask=N`, `arrive=N`, `handle=N`, and `see`: the ask that is due and the open demand.

ghost use Rattle.std.specs.Prelude.{◌≡◌, ◌≤◌, ◌*◌};
ghost use Rattle.stage_demand.specs.Demand.{counts_of};
ghost use Rattle.part_checks.specs.declared.demands.TheConstants.{MOST};

use crate::words::{Case, cut, item, number, refuse};
use stage_demand::{Demand, MAX_DEMAND};
use told_text::Told;

/// No case asks for more than twice as many.
const MOST: u64 = 10_000_000_000;

/// A demand, and its counts beside it.
#[derive(Clone, Copy)]
struct Tally {
    demand: Demand,
    max: u32,
    asked: u64,
    arrived: u64,
    handled: u64,
    ghost most: { (counts_of demand).max ≡ max },
    ghost all_asked: { (counts_of demand).asked ≡ asked },
    ghost all_arrived: { (counts_of demand).arrived ≡ arrived },
    ghost all_handled: { (counts_of demand).handled ≡ handled },
    ghost few_arrived: { arrived ≤ asked },
    ghost few_handled: { handled ≤ arrived },
    ghost few_asked: { asked ≤ 2 * MOST },
}

pub fn run(told: &mut Told, case: &Case<'_>) {
    let Some(mut tally) = begin(number(item(case.begun, 0)), number(item(case.begun, 1))) else {
        return refuse(told);
    };
    for act in case.acts.split_whitespace() {
        let (verb, count) = cut(act, '=');
        if verb == "see" {
            told.count(u64::from(tally.demand.due()));
            told.behind("/", u64::from(tally.demand.left()));
        } else if !count_more(&mut tally, verb, number(count)) {
            refuse(told);
        }
    }
}

fn begin(min: u32, max: u32) -> Option<Tally> {
    if max > MAX_DEMAND || min >= max {
        return None;
    }
    Some(Tally {
        demand: Demand::new(min, max),
        max,
        asked: 0,
        arrived: 0,
        handled: 0,
    })
}

/// Counts units, and answers whether that is allowed.
fn count_more(tally: &mut Tally, verb: &str, n: u32) -> bool {
    match verb {
        "ask" => ask(tally, n),
        "arrive" => arrive(tally, n),
        "handle" => handle(tally, n),
        _ => false,
    }
}

fn ask(tally: &mut Tally, n: u32) -> bool {
    let count = u64::from(n);
    if tally.asked > MOST || tally.asked + count > tally.handled + u64::from(tally.max) {
        return false;
    }
    tally.demand.asked(n);
    tally.asked += count;
    true
}

fn arrive(tally: &mut Tally, n: u32) -> bool {
    let count = u64::from(n);
    if tally.asked > MOST || tally.arrived + count > tally.asked {
        return false;
    }
    tally.demand.arrived(n);
    tally.arrived += count;
    true
}

fn handle(tally: &mut Tally, n: u32) -> bool {
    let count = u64::from(n);
    if tally.arrived > MOST || tally.handled + count > tally.arrived {
        return false;
    }
    tally.demand.handled(n);
    tally.handled += count;
    true
}
