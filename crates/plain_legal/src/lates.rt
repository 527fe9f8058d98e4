//! Answers from killed incarnations.

ghost use Rattle.std.specs.Prelude.{◌≡◌, ◌&&◌, ◌==◌, IfOk, not};
ghost use Rattle.pipe_model.specs.{History.{incarnation as incarnation_in}, Lives.{is_live as is_live_in}, Legal.{late_fits as late_fits_in, may_be_late as may_be_late_in}};
ghost use Rattle.plain_legal.specs.Machines.{MachineStands, topology_of, history_of};

use crate::answers::ends_batch;
use crate::machine::Machine;
use pipe_types::bytes::Bytes;
use pipe_types::message::BatchEnd;
use pipe_types::numbers::{Post, StageNo};
use pipe_types::step::{LateAnswer, SourceHow};
use plain_counts::{
    fetch_out, incarnation, is_batch_processor, is_out, is_processor, is_producer, is_supervisor,
    out_from,
};
use plain_rows::are_records;
use std::alloc::AllocError;

/// Whether a late fetch may bring these records.
fn fits_records(machine: &Machine<'_>, stage: StageNo, records: &[Bytes]) -> bool
    ensures { result ≡ late_fits_in (topology_of machine.now) (history_of machine.now) stage (LateAnswer.Records records.now) }
{
    let most = fetch_out(machine.flow.past.steps, stage);
    is_producer(machine.flow.past.topology, stage) && are_records(records, most)
}

/// Whether a source may end late so.
fn fits_end(machine: &Machine<'_>, stage: StageNo, how: SourceHow) -> bool
    ensures { result ≡ late_fits_in (topology_of machine.now) (history_of machine.now) stage (LateAnswer.Source how) }
{
    match how {
        SourceHow::Limit => false,
        _ => is_producer(machine.flow.past.topology, stage),
    }
}

/// Whether a batch may be answered late so, with so many bytes written.
fn fits_batch(
    machine: &Machine<'_>,
    stage: StageNo,
    bytes: u64,
    end: &BatchEnd,
) -> Result<bool, AllocError>
    requires { MachineStands machine.now }
    ensures { IfOk result (λ fits. fits ≡ late_fits_in (topology_of machine.now) (history_of machine.now) stage (LateAnswer.Wrote bytes end.now)) }
{
    let ended = ends_batch(machine, stage, bytes, end)?;
    Ok(is_batch_processor(machine.flow.past.topology, stage) && ended)
}

/// Whether the answer has the form that the job of the killed stage has.
fn late_fits(machine: &Machine<'_>, stage: StageNo, answer: &LateAnswer) -> Result<bool, AllocError>
    requires { MachineStands machine.now }
    ensures { IfOk result (λ fits. fits ≡ late_fits_in (topology_of machine.now) (history_of machine.now) stage answer.now) }
{
    let topology = machine.flow.past.topology;
    match answer {
        LateAnswer::Records(records) => Ok(fits_records(machine, stage, records.as_slice())),
        LateAnswer::Quiet => Ok(is_producer(topology, stage)),
        LateAnswer::Source(how) => Ok(fits_end(machine, stage, *how)),
        LateAnswer::Wrote(bytes, end) => fits_batch(machine, stage, *bytes, end),
        LateAnswer::Nothing => Ok(is_processor(topology, stage) || is_supervisor(topology, stage)),
    }
}

/// Whether the incarnation of the stage was killed.
fn was_killed(machine: &Machine<'_>, stage: StageNo, number: u32) -> Result<bool, AllocError>
    requires { MachineStands machine.now }
    ensures { IfOk result (λ killed. killed ≡ not (is_live_in (topology_of machine.now) (history_of machine.now) stage && incarnation_in (history_of machine.now) stage == number)) }
{
    let present = incarnation(machine.flow.past.steps, stage)?;
    Ok(!(machine.flow.past.is_live(stage) && present == u64::from(number)))
}

/// Whether the post is out from that incarnation, which was killed, and may be answered so.
pub(crate) fn may_be_late(
    machine: &Machine<'_>,
    stage: StageNo,
    slot: u16,
    number: u32,
    answer: &LateAnswer,
) -> Result<bool, AllocError>
    requires { MachineStands machine.now }
    ensures { IfOk result (λ may. may ≡ may_be_late_in (topology_of machine.now) (history_of machine.now) stage slot number answer.now) }
{
    let at = Post { stage, slot };
    let fits = late_fits(machine, stage, answer)?;
    let killed = was_killed(machine, stage, number)?;
    let from = out_from(machine.flow.past.steps, at)?;
    Ok(is_out(machine.flow.past.steps, at) && (from == u64::from(number) && (killed && fits)))
}
