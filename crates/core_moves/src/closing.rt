//! The close of a batch, for every sound topology.
//!
//! The batch that begins with a message is closed by the trigger that holds of it: its size, then flush mode or that
//! nothing more comes to its batcher, then its timeout.

ghost use Rattle.std.specs.Prelude.{◌≡◌, ◌∷◌, ◌+◌, IfOk, OnOk, OnErr, IsTrue};
ghost use Rattle.pipe_types.specs.{declared.message.Trigger.{Trigger}, declared.step.Step.TheVariants.{Close}, Numbers.{batch_no}};
ghost use Rattle.pipe_model.specs.{History.{closed}, Legal.{allows}};
ghost use Rattle.core_state.specs.Stands.{Stands};
ghost use Rattle.core_batches.specs.Closes.{MayClose};

use core_batches::closes::close_batch;
use core_rows::rests::is_dry;
use core_state::Core;
use pipe_types::numbers::{BatchNo, MsgNo, StageNo};
use std::alloc::AllocError;

/// Appends that the batcher closes the open batch that begins with the message, by the trigger that holds of it, and
/// answers the batch's number.
pub fn close(core: &mut Core, stage: StageNo, first: MsgNo) -> Result<BatchNo, AllocError>
    requires stands { Stands core.old }
    requires legal { MayClose core.old.topology core.old.journal.steps stage first }
    ensures number { IfOk result (λ no. no ≡ batch_no (closed core.old.journal.steps + 1)) }
    ensures appended { OnOk result ((trigger : Trigger) → IsTrue (allows core.old.topology core.old.journal.steps (Close stage first trigger)) → core.new.journal.steps ≡ Close stage first trigger ∷ core.old.journal.steps) }
    ensures unchanged { OnErr result (core.new.journal.steps ≡ core.old.journal.steps) }
    ensures topology { core.new.topology ≡ core.old.topology }
    ensures stands { Stands core.new }
{
    let dry = is_dry(core, stage);
    close_batch(core, stage, first, dry)
}
