//! How many messages handlers have seen.

ghost use Rattle.std.specs.Prelude.{◌≡◌, IfOk};
ghost use Rattle.pipe_types.specs.Stages.{spec_of};
ghost use Rattle.pipe_model.specs.{History.{history}, Flow.{view_of}, Work.{count as count_in}};
ghost use Rattle.plain_queues.specs.{Flows.{topology_of, history_of}, Views.{view_in}};
ghost use Rattle.plain_works.specs.Works.{count_by, after_batch as after_batch_in, step_counts, WorksStand};

use crate::messages::batch_of;
use crate::works::{CountRow, Works};
use pipe_types::message::Message;
use pipe_types::numbers::StageNo;
use pipe_types::step::Step;
use pipe_types::topology::Topology;
use plain_handlers::{count_after_batch, counted};
use plain_lives::Past;
use plain_queues::Flow;
use std::alloc::{AllocError, Global};

fn count_in_rows(counts: &[CountRow], stage: StageNo) -> u64
    ensures { result ≡ count_by counts.now stage }
{
    for row in counts {
        if stage.0 == row.stage.0 {
            return row.count;
        }
    }
    0
}

/// How many messages the stage's handler has seen: each message of a chunk or a batch that it evaluated adds one.
pub fn count(past: &Past<'_>, works: &Works, stage: StageNo) -> u64
    requires { WorksStand past.now.topology.now (history past.now.steps.now) works.now }
    ensures { result ≡ count_in past.now.topology.now (history past.now.steps.now) stage }
{
    count_in_rows(works.counts.as_slice(), stage)
}

/// The count after these messages, and the old one where there is no such stage.
fn after_batch(
    alloc: Global,
    topology: &Topology,
    stage: StageNo,
    old: u64,
    messages: &[Message],
) -> Result<u64, AllocError>
    ensures { IfOk result (λ n. n ≡ after_batch_in (spec_of topology.now stage) old messages.now) }
{
    match topology.stages.find(stage) {
        Some(spec) => count_after_batch(alloc, spec, old, messages),
        None => Ok(old),
    }
}

/// The new count of the stage that the step is of.
pub(crate) fn count_row(
    flow: &Flow<'_>,
    works: &Works,
    step: &Step,
) -> Result<Option<CountRow>, AllocError>
    requires tables { view_in flow.now.tables.now ≡ view_of (topology_of flow.now) (history_of flow.now) }
    requires works { WorksStand (topology_of flow.now) (history_of flow.now) works.now }
    ensures { IfOk result (λ row. row ≡ step_counts (topology_of flow.now) (history_of flow.now) step.now) }
{
    match step {
        Step::Restart { stage } => Ok(Some(CountRow {
            stage: *stage,
            count: 0,
        })),
        Step::Done { stage, replies } => Ok(Some(CountRow {
            stage: *stage,
            count: counted(count(&flow.past, works, *stage), replies.as_slice().len()),
        })),
        Step::Wrote { stage, .. } => {
            let old = count(&flow.past, works, *stage);
            let messages = batch_of(flow, works, *stage)?;
            let new = after_batch(
                flow.alloc,
                flow.past.topology,
                *stage,
                old,
                messages.as_slice(),
            )?;
            Ok(Some(CountRow {
                stage: *stage,
                count: new,
            }))
        }
        _ => Ok(None),
    }
}
