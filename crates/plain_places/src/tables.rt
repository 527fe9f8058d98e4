//! The tables after one more step.

ghost use Rattle.std.specs.Prelude.{◌≡◌, ◌++◌, ◌∷◌, [], IfOk};
ghost use Rattle.pipe_types.specs.declared.topology.Topology.{Topology as Stages};
ghost use Rattle.pipe_model.specs.History.{history};
ghost use Rattle.plain_lives.specs.Lives.{LivesStand};
ghost use Rattle.plain_queues.specs.{Flows.{topology_of, history_of}, Views.{view_in}};
ghost use Rattle.plain_places.specs.{Standing.{TablesStand}, Moves.{sent_by}};

use crate::batches::batches_after;
use crate::places::places_after;
use pipe_types::room::Sent;
use pipe_types::step::Step;
use plain_queues::{Flow, Tables};
use plain_sends::sends_by;
use std::alloc::{AllocError, Global};

/// The tables of an empty history: nothing was accepted, closed or sent.
pub fn no_tables(alloc: Global) -> Tables
    ensures { (topology : Stages) → TablesStand topology [] result }
{
    Tables {
        places: Vec::new(alloc),
        batches: Vec::new(alloc),
        sends: Vec::new(alloc),
    }
}

fn with_sends(alloc: Global, old: &[Sent], new: &[Sent]) -> Result<Vec<Sent>, AllocError>
    ensures { IfOk result (λ all. all.items ≡ old.now ++ new.now) }
{
    let mut all = Vec::from_slice(alloc, old)?;
    for one in new {
        all.push(*one)?;
    }
    Ok(all)
}

/// All that was sent, and behind it what the step sends.
fn sends_after(flow: &Flow<'_>, step: &Step) -> Result<Vec<Sent>, AllocError>
    requires { LivesStand (topology_of flow.now) (history_of flow.now) flow.now.past.lives.now }
    ensures { IfOk result (λ sends. sends.items ≡ flow.now.tables.now.sends.items ++ sent_by (topology_of flow.now) (history_of flow.now) (view_in flow.now.tables.now) step.now) }
{
    match step {
        Step::Dispatch { stage } => {
            let sent = sends_by(flow, *stage)?;
            with_sends(flow.alloc, flow.tables.sends.as_slice(), sent.as_slice())
        }
        _ => Vec::from_slice(flow.alloc, flow.tables.sends.as_slice()),
    }
}

/// The tables after one more step, where they stand for the steps before it.
pub fn tables_after(flow: &Flow<'_>, step: &Step) -> Result<Tables, AllocError>
    requires lives { LivesStand (topology_of flow.now) (history_of flow.now) flow.now.past.lives.now }
    requires tables { TablesStand (topology_of flow.now) (history_of flow.now) flow.now.tables.now }
    ensures { IfOk result (λ after. TablesStand (topology_of flow.now) (step.now ∷ history_of flow.now) after) }
{
    let batches = batches_after(flow, step)?;
    let places = places_after(flow, batches.as_slice(), step)?;
    let sends = sends_after(flow, step)?;
    Ok(Tables {
        places,
        batches,
        sends,
    })
}
