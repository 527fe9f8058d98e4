//! A whole list of steps judged.

ghost use Rattle.std.specs.Prelude.{◌≡◌, IfOk};
ghost use Rattle.pipe_types.specs.Sound.{IsSound};
ghost use Rattle.pipe_model.specs.{History.{history}, Legal.{is_legal}};

use crate::run::PlainRun;
use pipe_types::step::Step;
use pipe_types::topology::Topology;
use std::alloc::{AllocError, Global};

/// Whether the steps, oldest first, are legal for the topology. So `pipe_replay` answers a state for just these lists.
pub fn are_legal(alloc: Global, topology: Topology, steps: &[Step]) -> Result<bool, AllocError>
    requires sound { IsSound topology }
    ensures { IfOk result (λ yes. yes ≡ is_legal topology (history steps.now)) }
{
    let mut run = match PlainRun::new(alloc, topology) {
        Ok(run) => run,
        Err((_, failed)) => return Err(failed),
    };
    for i in 0..steps.len() {
        let legal = run.step(&steps[i])?;
        if !legal {
            return Ok(false);
        }
    }
    Ok(true)
}
