//! Answers of handlers, and asks.

ghost use Rattle.std.specs.Prelude.{◌≡◌, ◌&&◌, ◌==◌, IfOk};
ghost use Rattle.pipe_types.specs.Stages.{spec_of};
ghost use Rattle.pipe_model.specs.Work.{are_handled as are_handled_in, count as count_in, chunk_of as chunk_of_in, child_of as child_of_in};
ghost use Rattle.pipe_model.specs.Legal.{may_come, ends_batch as ends_batch_in};
ghost use Rattle.plain_legal.specs.Machines.{MachineStands, topology_of, history_of};

use crate::machine::Machine;
use pipe_types::message::{BatchEnd, Reply};
use pipe_types::numbers::{StageNo, SubNo};
use pipe_types::step::Step;
use plain_counts::{is_batch_processor, is_current, is_processor, is_supervisor};
use plain_handlers::{are_handled, is_batch_handled};
use plain_works::{batch_of, child_of, chunk_of, count, due};
use std::alloc::AllocError;
use std::slice::from_ref;

/// Whether the ask is due.
pub(crate) fn may_ask(machine: &Machine<'_>, sub: SubNo, n: u32) -> Result<bool, AllocError>
    requires { MachineStands machine.now }
    ensures { IfOk result (λ may. may ≡ may_come (topology_of machine.now) (history_of machine.now) (Step.Ask sub n)) }
{
    let due = due(&machine.flow.past, machine.works, sub)?;
    Ok(1 <= n && u64::from(n) == due)
}

/// Whether the replies are the handler's to the chunk that the stage took.
fn answers_chunk(
    machine: &Machine<'_>,
    stage: StageNo,
    replies: &[Reply],
) -> Result<bool, AllocError>
    requires { MachineStands machine.now }
    ensures { IfOk result (λ are. are ≡ are_handled_in (spec_of (topology_of machine.now) stage) (count_in (topology_of machine.now) (history_of machine.now) stage) (chunk_of_in (topology_of machine.now) (history_of machine.now) stage) replies.now) }
{
    let chunk = chunk_of(&machine.flow, machine.works, stage)?;
    let seen = count(&machine.flow.past, machine.works, stage);
    let spec = machine.flow.past.topology.stages.find(stage);
    are_handled(machine.flow.alloc, spec, seen, chunk.as_slice(), replies)
}

/// Whether the processor may answer its chunk so.
pub(crate) fn may_reply(
    machine: &Machine<'_>,
    stage: StageNo,
    replies: &[Reply],
) -> Result<bool, AllocError>
    requires { MachineStands machine.now }
    ensures { IfOk result (λ may. may ≡ may_come (topology_of machine.now) (history_of machine.now) (Step.Done stage replies.now)) }
{
    let answered = answers_chunk(machine, stage, replies)?;
    let current = is_current(machine.flow.past.steps, stage, 0)?;
    let handles = is_processor(machine.flow.past.topology, stage);
    Ok(machine.flow.past.is_live(stage) && (handles && (current && answered)))
}

/// Whether the batch that the stage has taken ends so, with so many bytes written.
pub(crate) fn ends_batch(
    machine: &Machine<'_>,
    stage: StageNo,
    bytes: u64,
    end: &BatchEnd,
) -> Result<bool, AllocError>
    requires { MachineStands machine.now }
    ensures { IfOk result (λ ends. ends ≡ ends_batch_in (topology_of machine.now) (history_of machine.now) stage bytes end.now) }
{
    let batch = batch_of(&machine.flow, machine.works, stage)?;
    let seen = count(&machine.flow.past, machine.works, stage);
    let spec = machine.flow.past.topology.stages.find(stage);
    is_batch_handled(machine.flow.alloc, spec, seen, batch.as_slice(), bytes, end)
}

/// Whether the batch processor may end its batch so.
pub(crate) fn may_write(
    machine: &Machine<'_>,
    stage: StageNo,
    bytes: u64,
    end: &BatchEnd,
) -> Result<bool, AllocError>
    requires { MachineStands machine.now }
    ensures { IfOk result (λ may. may ≡ may_come (topology_of machine.now) (history_of machine.now) (Step.Wrote stage bytes end.now)) }
{
    let ended = ends_batch(machine, stage, bytes, end)?;
    let current = is_current(machine.flow.past.steps, stage, 0)?;
    let writes = is_batch_processor(machine.flow.past.topology, stage);
    Ok(machine.flow.past.is_live(stage) && (writes && (current && ended)))
}

/// Whether the reply is the handler's to the message of the child in the slot, which counts from 0.
fn answers_child(
    machine: &Machine<'_>,
    stage: StageNo,
    slot: u16,
    replies: &[Reply],
) -> Result<bool, AllocError>
    ensures { IfOk result (λ are. are ≡ are_handled_in (spec_of (topology_of machine.now) stage) 0 (child_of_in (history_of machine.now) stage slot) replies.now) }
{
    let messages = child_of(machine.flow.alloc, machine.flow.past.steps, stage, slot)?;
    let spec = machine.flow.past.topology.stages.find(stage);
    are_handled(machine.flow.alloc, spec, 0, messages.as_slice(), replies)
}

/// Whether the supervisor's child in the slot may end so.
pub(crate) fn may_end_child(
    machine: &Machine<'_>,
    stage: StageNo,
    slot: u16,
    reply: &Reply,
) -> Result<bool, AllocError>
    requires { MachineStands machine.now }
    ensures { IfOk result (λ may. may ≡ may_come (topology_of machine.now) (history_of machine.now) (Step.ChildEnd stage slot reply.now)) }
{
    let answered = answers_child(machine, stage, slot, from_ref(reply))?;
    let current = is_current(machine.flow.past.steps, stage, slot)?;
    let supervises = is_supervisor(machine.flow.past.topology, stage);
    Ok(machine.flow.past.is_live(stage) && (supervises && (current && answered)))
}
