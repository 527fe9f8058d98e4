//! What stages took.

ghost use Rattle.std.specs.Prelude.{◌≡◌, IfOk, take, option_map, option_copied};
ghost use Rattle.pipe_model.specs.Flow.{view_of, inbox as inbox_in, units_on as units_on_in};
ghost use Rattle.plain_queues.specs.{Flows.{topology_of, history_of}, Views.{view_in}};
ghost use Rattle.plain_works.specs.Works.{units_by, units_in, taken_of, step_takes};

use crate::works::TakeRow;
use pipe_types::numbers::{StageNo, SubNo};
use pipe_types::step::Step;
use plain_queues::{Flow, next_units};
use std::alloc::AllocError;

/// The stage's newest row.
pub(crate) fn last_taken(takes: &[TakeRow], stage: StageNo) -> Option<&TakeRow>
    ensures { units_in (option_copied result) ≡ units_by takes.now stage }
{
    for taken in takes {
        if stage.0 == taken.stage.0 {
            return Some(taken);
        }
    }
    None
}

/// The next `k` units of the stage's inbox that came on the subscription.
fn next_now(flow: &Flow<'_>, stage: StageNo, sub: SubNo, k: u32) -> Result<Vec<u32>, AllocError>
    requires { view_in flow.now.tables.now ≡ view_of (topology_of flow.now) (history_of flow.now) }
    ensures { IfOk result (λ next. next.items ≡ take k (units_on_in sub (inbox_in (topology_of flow.now) (history_of flow.now) stage))) }
{
    next_units(flow, stage, sub, k)
}

/// What the step takes.
pub(crate) fn take_row(flow: &Flow<'_>, step: &Step) -> Result<Option<TakeRow>, AllocError>
    requires { view_in flow.now.tables.now ≡ view_of (topology_of flow.now) (history_of flow.now) }
    ensures { IfOk result (λ row. option_map taken_of row ≡ step_takes (topology_of flow.now) (history_of flow.now) step.now) }
{
    match step {
        Step::Take { stage, sub, k } => {
            let units = next_now(flow, *stage, *sub, *k)?;
            Ok(Some(TakeRow {
                stage: *stage,
                units,
            }))
        }
        _ => Ok(None),
    }
}
