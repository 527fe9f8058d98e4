//! The works that a step leaves.

ghost use Rattle.std.specs.Prelude.{◌≡◌, ◌∷◌, [], IfOk};
ghost use Rattle.pipe_types.specs.declared.topology.Topology.{Topology as TopologyOf};
ghost use Rattle.pipe_model.specs.Flow.{view_of};
ghost use Rattle.plain_queues.specs.{Flows.{topology_of, history_of}, Views.{view_in}};
ghost use Rattle.plain_works.specs.Works.{WorksStand};

use crate::counts::count_row;
use crate::ledger::handled_row;
use crate::takes::take_row;
use crate::works::{Works, led_by};
use pipe_types::step::Step;
use plain_queues::Flow;
use std::alloc::{AllocError, Global};

/// The works before any step.
pub fn no_works(alloc: Global) -> Works
    ensures { (topology : TopologyOf) → WorksStand topology [] result }
{
    Works {
        takes: Vec::new(alloc),
        counts: Vec::new(alloc),
        handled: Vec::new(alloc),
    }
}

/// The works after one more step.
pub fn works_after(flow: &Flow<'_>, works: Works, step: &Step) -> Result<Works, AllocError>
    requires tables { view_in flow.now.tables.now ≡ view_of (topology_of flow.now) (history_of flow.now) }
    requires works { WorksStand (topology_of flow.now) (history_of flow.now) works }
    ensures { IfOk result (λ after. WorksStand (topology_of flow.now) (step.now ∷ history_of flow.now) after) }
{
    let take = take_row(flow, step)?;
    let count = count_row(flow, &works, step)?;
    let handling = handled_row(flow, step)?;
    let Works {
        takes,
        counts,
        handled,
    } = works;
    let take_rows = led_by(take, takes)?;
    let count_rows = led_by(count, counts)?;
    let handled_rows = led_by(handling, handled)?;
    Ok(Works {
        takes: take_rows,
        counts: count_rows,
        handled: handled_rows,
    })
}
