//! Handlers that crashed: the answer, and the kill that it owes.

ghost use Rattle.std.specs.{Prelude.{◌≡◌, ◌∷◌, Some, IsTrue}, List.{list_any}};
ghost use Rattle.pipe_types.specs.{declared.message.BatchEnd.TheVariants.{Crashed}, declared.message.Why.TheVariants.{Crash}, declared.step.Step.TheVariants.{Done, Wrote, Kill}};
ghost use Rattle.pipe_model.specs.{Content.{has_crash}, Ledger.{crashed_reply}, Legal.{allows, owed, is_crash_of}};
ghost use Rattle.core_state.specs.Stands.{Holds, Stands};
ghost use Rattle.stage_bodies.specs.Posts.{is_crashed_end};

use core_kills::kills::kill_owed;
use core_lates::{answer_crash, write_crash};
use core_state::Core;
use pipe_types::message::{BatchEnd, Reply, ReplyList, Why};
use pipe_types::numbers::StageNo;

/// Whether one of the replies is a crash.
pub(crate) fn any_crashed(replies: &[Reply]) -> bool
    ensures { result ≡ list_any crashed_reply replies.now }
{
    replies.iter().any(|reply| matches!(reply, Reply::Crashed))
}

/// Whether the batch ended with a crash.
pub(crate) fn has_crashed(end: &BatchEnd) -> bool
    ensures { result ≡ is_crashed_end end.now }
{
    matches!(end, BatchEnd::Crashed)
}

/// Appends what the handler answered to its chunk before it crashed, and the kill that this owes. It takes no memory.
pub(crate) fn crash_chunk(core: &mut Core, stage: StageNo, replies: ReplyList)
    requires stands { Stands core.old }
    requires legal { IsTrue (allows core.old.topology core.old.journal.steps (Done stage replies)) }
    requires crash { IsTrue (has_crash replies) }
    ensures appended { core.new.journal.steps ≡ Kill stage Crash ∷ (Done stage replies ∷ core.old.journal.steps) }
    ensures topology { core.new.topology ≡ core.old.topology }
    ensures stands { Stands core.new }
{
    answer_crash(core, stage, replies);
    kill_for_crash(core, stage);
}

/// Appends that the handler crashed with its batch, and the kill that this owes. It takes no memory.
pub(crate) fn crash_batch(core: &mut Core, stage: StageNo)
    requires stands { Stands core.old }
    requires legal { IsTrue (allows core.old.topology core.old.journal.steps (Wrote stage 0 Crashed)) }
    ensures appended { core.new.journal.steps ≡ Kill stage Crash ∷ (Wrote stage 0 Crashed ∷ core.old.journal.steps) }
    ensures topology { core.new.topology ≡ core.old.topology }
    ensures stands { Stands core.new }
{
    write_crash(core, stage);
    kill_for_crash(core, stage);
}

/// Appends the kill of the stage, which its crash owes.
fn kill_for_crash(core: &mut Core, stage: StageNo)
    requires holds { Holds core.old }
    requires owed { owed core.old.topology core.old.journal.steps ≡ Some (is_crash_of stage) }
    ensures appended { core.new.journal.steps ≡ Kill stage Crash ∷ core.old.journal.steps }
    ensures topology { core.new.topology ≡ core.old.topology }
    ensures stands { Stands core.new }
{
    kill_owed(core, stage, Why::Crash);
}
