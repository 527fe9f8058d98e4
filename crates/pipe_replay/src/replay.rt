//! The replay of a list of steps.

ghost use Rattle.std.specs.Prelude.{◌≡◌, true, IfOk, IfSome, IsSome, is_some};
ghost use Rattle.pipe_types.specs.Sound.{IsSound};
ghost use Rattle.pipe_model.specs.{History.{history}, Legal.{is_legal}};
ghost use Rattle.pipe_laws.specs.KeptClaims.{KeepsClaims};
ghost use Rattle.pipe_replay.specs.{Rows.{IsStateOf}, States.{StateStands}};

use crate::ledgers::sub_rows;
use crate::lives::life_rows;
use crate::places::place_rows;
use crate::state::{State, state_of};
use pipe_types::state::{LifeList, PlaceList, PlainState, SubList};
use pipe_types::step::Step;
use pipe_types::topology::Topology;
use plain_counts::{has_drained, has_halted, now};
use plain_legal::Machine;
use plain_lives::Past;
use plain_queues::Flow;
use std::alloc::{AllocError, Global};

/// The state, row by row.
fn rows_of(
    alloc: Global,
    topology: &Topology,
    steps: &[Step],
    state: &State,
) -> Result<PlainState, AllocError>
    requires legal { is_legal topology.now (history steps.now) ≡ true }
    requires stands { StateStands topology.now (history steps.now) state.now }
    ensures { IfOk result (λ rows. IsStateOf topology.now (history steps.now) rows) }
{
    let past = Past {
        topology,
        steps,
        lives: &state.lives,
    };
    let flow = Flow {
        alloc,
        past,
        tables: &state.tables,
    };
    let machine = Machine {
        flow,
        works: &state.works,
    };
    let places = place_rows(&flow, state.settled.as_slice())?;
    let subs = sub_rows(alloc, &machine)?;
    let lives = life_rows(alloc, &past)?;
    Ok(PlainState {
        places: PlaceList::from_vec(places),
        subs: SubList::from_vec(subs),
        lives: LifeList::from_vec(lives),
        now: now(steps),
        draining: has_drained(steps),
        halted: has_halted(steps),
    })
}

/// The state that the steps leave, oldest first, and none exactly where they are not legal for the topology. In a
/// state the messages stand in order of their numbers, the subscriptions in order of consumers, producers and
/// generations, and the stages as in the topology; `now` is the last tick in milliseconds. Where the topology is
/// sound, a list that leaves a state keeps the claims of a legal journal. A count that outgrows its width, which takes
/// more than four thousand million steps, is answered as want of memory.
pub fn replay_plain(
    alloc: Global,
    topology: &Topology,
    steps: &[Step],
) -> Result<Option<PlainState>, AllocError>
    ensures legal { IfOk result (λ found. is_some found ≡ is_legal topology.now (history steps.now)) }
    ensures state { IfOk result (λ found. IfSome found (λ state. IsStateOf topology.now (history steps.now) state)) }
    ensures claims { IfOk result (λ found. IsSome found → IsSound topology.now → KeepsClaims topology.now (history steps.now)) }
{
    match state_of(alloc, topology, steps)? {
        Some(state) => Ok(Some(rows_of(alloc, topology, steps, &state)?)),
        None => Ok(None),
    }
}
