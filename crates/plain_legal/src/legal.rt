//! Which step may come next.

ghost use Rattle.std.specs.Prelude.{◌≡◌, IfOk};
ghost use Rattle.pipe_model.specs.Legal.{allows as allows_in, is_late as is_late_in};
ghost use Rattle.plain_legal.specs.Machines.{MachineStands, topology_of, history_of};

use crate::machine::Machine;
use crate::owed::{last_owes, passes};
use crate::rows::may_come;
use pipe_types::step::Step;
use plain_counts::has_halted;
use std::alloc::AllocError;

fn is_late(step: &Step) -> bool
    ensures { result ≡ is_late_in step.now }
{
    match step {
        Step::Late { .. } => true,
        _ => false,
    }
}

/// Whether the step may come next: behind a halt only a late answer, the owed step where one is owed, and else any
/// step that its row lets come.
pub fn allows(machine: &Machine<'_>, step: &Step) -> Result<bool, AllocError>
    requires { MachineStands machine.now }
    ensures { IfOk result (λ may. may ≡ allows_in (topology_of machine.now) (history_of machine.now) step.now) }
{
    let may = may_come(machine, step)?;
    let owed = last_owes(machine)?;
    let halted = has_halted(machine.flow.past.steps);
    Ok((!halted || is_late(step)) && passes(owed, step, may))
}
