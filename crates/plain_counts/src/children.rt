//! How often children crashed.

ghost use Rattle.std.specs.Prelude.{◌≡◌, IfOk, option_copied};
ghost use Rattle.pipe_model.specs.{History.{history}, Posts.{crashed_as as crashed_as_in, crashes_after as crashes_then, crashes as crashes_in}};
ghost use Rattle.pipe_model.specs.Flow.{runs_again as runs_again_in};

use crate::counts::plus;
use crate::posts::in_slot;
use pipe_types::message::Reply;
use pipe_types::step::Step;
use pipe_types::topology::{ChildMode, StageSpec};
use std::alloc::AllocError;

/// One more, where the ended child ran this message and crashed.
fn crashed_as(ended: Option<u32>, reply: &Reply, n: u32, old: u64) -> Result<u64, AllocError>
    ensures { IfOk result (λ count. count ≡ crashed_as_in ended reply.now n old) }
{
    match (ended, reply) {
        (Some(m), Reply::Crashed) if m == n => plus(old, 1),
        _ => Ok(old),
    }
}

fn crashes_after(before: &[Step], step: &Step, n: u32, old: u64) -> Result<u64, AllocError>
    ensures { IfOk result (λ count. count ≡ crashes_then (history before.now) step.now n old) }
{
    match step {
        Step::ChildEnd { stage, slot, reply } => {
            crashed_as(in_slot(before, *stage, *slot), reply, n, old)
        }
        _ => Ok(old),
    }
}

/// How many children of message `n` crashed.
pub fn crashes(steps: &[Step], n: u32) -> Result<u64, AllocError>
    ensures { IfOk result (λ count. count ≡ crashes_in (history steps.now) n) }
{
    let mut count = 0;
    for i in 0..steps.len() {
        count = crashes_after(&steps[..i], &steps[i], n, count)?;
    }
    Ok(count)
}

/// Whether a message of the supervisor that crashed this often before runs again after one more crash.
pub fn runs_again(spec: Option<&StageSpec>, crashes: u64) -> bool
    ensures { result ≡ runs_again_in (option_copied spec.entry) crashes }
{
    match spec {
        Some(spec) => match spec.child {
            ChildMode::Temporary => false,
            ChildMode::Transient => crashes < 3,
        },
        None => false,
    }
}
