//! The row of each kind of step.

ghost use Rattle.std.specs.Prelude.{◌≡◌, IfOk};
ghost use Rattle.pipe_model.specs.Legal.{may_come as may_come_in};
ghost use Rattle.plain_legal.specs.Machines.{MachineStands, topology_of, history_of};

use crate::answers::{may_ask, may_end_child, may_reply, may_write};
use crate::lates::may_be_late;
use crate::machine::Machine;
use pipe_types::step::Step;
use plain_places::may_dispatch_now;
use plain_rows::{
    may_accept, may_answer_quiet, may_close, may_drain, may_end, may_fetch, may_gather, may_halt,
    may_kill, may_refuse, may_renew, may_start, may_take, may_tick,
};
use std::alloc::AllocError;

/// Whether the step may come by the row of its kind.
pub(crate) fn may_come(machine: &Machine<'_>, step: &Step) -> Result<bool, AllocError>
    requires { MachineStands machine.now }
    ensures { IfOk result (λ may. may ≡ may_come_in (topology_of machine.now) (history_of machine.now) step.now) }
{
    let flow = &machine.flow;
    let past = &flow.past;
    match step {
        Step::Ask { sub, n } => may_ask(machine, *sub, *n),
        Step::Fetch { stage, n } => may_fetch(flow, *stage, *n),
        Step::Accept { stage, records } => may_accept(past, *stage, records.as_slice()),
        Step::Quiet { stage } => may_answer_quiet(past, *stage),
        Step::SourceEnd { stage, how } => may_end(past, *stage, *how),
        Step::Dispatch { stage } => may_dispatch_now(flow, *stage),
        Step::Take { stage, sub, k } => may_take(flow, *stage, *sub, *k),
        Step::Done { stage, replies } => may_reply(machine, *stage, replies.as_slice()),
        Step::Gather { stage, no } => may_gather(flow, *stage, no.0),
        Step::Close {
            stage,
            first,
            trigger,
        } => may_close(flow, *stage, first.0, *trigger),
        Step::Wrote { stage, bytes, end } => may_write(machine, *stage, *bytes, end),
        Step::Child { stage, no, slot } => may_start(flow, *stage, no.0, *slot),
        Step::ChildEnd { stage, slot, reply } => may_end_child(machine, *stage, *slot, reply),
        Step::Kill { stage, why } => may_kill(past, *stage, *why),
        Step::Late {
            stage,
            slot,
            incarnation,
            answer,
        } => may_be_late(machine, *stage, *slot, *incarnation, answer),
        Step::Restart { stage } => may_renew(past, *stage),
        Step::Tick { now } => Ok(may_tick(past, *now)),
        Step::Drain { cause } => may_drain(past, *cause),
        Step::Halt => may_halt(past),
        Step::Refuse { line } => may_refuse(past, *line),
    }
}
