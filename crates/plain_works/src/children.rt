//! How often children crashed.

ghost use Rattle.std.specs.Prelude.{◌≡◌, IfOk};
ghost use Rattle.pipe_model.specs.{History.{history}, Ledger.{crashed_reply, crashes_of as crashes_of_in}};

use pipe_types::message::Reply;
use pipe_types::step::Step;
use plain_counts::crashes;
use std::alloc::AllocError;

/// Whether the reply is a crash.
pub(crate) fn is_crash(reply: &Reply) -> bool
    ensures { result ≡ crashed_reply reply.now }
{
    match reply {
        Reply::Crashed => true,
        _ => false,
    }
}

/// How many children of a message crashed, and 0 for none.
pub(crate) fn crashes_of(steps: &[Step], n: Option<u32>) -> Result<u64, AllocError>
    ensures { IfOk result (λ count. count ≡ crashes_of_in (history steps.now) n) }
{
    match n {
        Some(n) => crashes(steps, n),
        None => Ok(0),
    }
}
