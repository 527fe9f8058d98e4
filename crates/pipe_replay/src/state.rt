//! What stands for the steps so far.

ghost use Rattle.std.specs.Prelude.{◌≡◌, ◌∷◌, [], IfOk, IfSome, is_some};
ghost use Rattle.pipe_types.specs.declared.topology.Topology.{Topology as AnyTopology};
ghost use Rattle.pipe_model.specs.{History.{history}, Legal.{allows as allows_in, is_legal}};
ghost use Rattle.pipe_replay.specs.States.{StateStands};

use crate::settled::settled_after;
use pipe_types::step::Step;
use pipe_types::topology::Topology;
use plain_legal::{Machine, allows};
use plain_lives::{Lives, Past, lives_after};
use plain_places::{no_tables, tables_after};
use plain_queues::{Flow, Tables};
use plain_works::{Works, no_works, works_after};
use std::alloc::{AllocError, Global};

/// The lives, the tables and the works after the steps so far, and the place in the journal, from 0, of the step that
/// acknowledged or lost each message, or 0.
#[derive(Drop)]
pub(crate) struct State {
    pub lives: Lives,
    pub tables: Tables,
    pub works: Works,
    pub settled: Vec<u64>,
}

/// Before any step.
fn first_state(alloc: Global) -> State
    ensures { (topology : AnyTopology) → StateStands topology [] result }
{
    State {
        lives: Lives {
            deaths: Vec::new(alloc),
            renewals: Vec::new(alloc),
        },
        tables: no_tables(alloc),
        works: no_works(alloc),
        settled: Vec::new(alloc),
    }
}

/// Whether the step may come after these.
fn may_follow(
    alloc: Global,
    topology: &Topology,
    before: &[Step],
    state: &State,
    step: &Step,
) -> Result<bool, AllocError>
    requires { StateStands topology.now (history before.now) state.now }
    ensures { IfOk result (λ may. may ≡ allows_in topology.now (history before.now) step.now) }
{
    let machine = Machine {
        flow: Flow {
            alloc,
            past: Past {
                topology,
                steps: before,
                lives: &state.lives,
            },
            tables: &state.tables,
        },
        works: &state.works,
    };
    allows(&machine, step)
}

/// After one more step.
fn state_after(
    alloc: Global,
    topology: &Topology,
    before: &[Step],
    state: State,
    step: &Step,
) -> Result<State, AllocError>
    requires { StateStands topology.now (history before.now) state }
    ensures { IfOk result (λ after. StateStands topology.now (step.now ∷ history before.now) after) }
{
    let State {
        lives,
        tables: old,
        works,
        settled,
    } = state;
    let flow = Flow {
        alloc,
        past: Past {
            topology,
            steps: before,
            lives: &lives,
        },
        tables: &old,
    };
    let tables = tables_after(&flow, step)?;
    let settled = settled_after(&flow, &tables, settled.as_slice(), step)?;
    let works = works_after(&flow, works, step)?;
    let lives = lives_after(alloc, topology, lives, step)?;
    Ok(State {
        lives,
        tables,
        works,
        settled,
    })
}

/// What stands for the whole list, and none where a step of it may not come.
pub(crate) fn state_of(
    alloc: Global,
    topology: &Topology,
    steps: &[Step],
) -> Result<Option<State>, AllocError>
    ensures legal { IfOk result (λ found. is_some found ≡ is_legal topology.now (history steps.now)) }
    ensures stands { IfOk result (λ found. IfSome found (λ state. StateStands topology.now (history steps.now) state)) }
{
    let mut state = first_state(alloc);
    for i in 0..steps.len() {
        let before = &steps[..i];
        if !may_follow(alloc, topology, before, &state, &steps[i])? {
            return Ok(None);
        }
        state = state_after(alloc, topology, before, state, &steps[i])?;
    }
    Ok(Some(state))
}
