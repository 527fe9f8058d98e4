//! A callback: what a stage calls on its messages.

ghost use Rattle.std.specs.Prelude.{◌≡◌, ◌≢◌, ◌≤◌, ℕ, Bool, true, false, List, IsTrue, IfOk, OnOk, OnErr};
ghost use Rattle.pipe_types.specs.{Handlers.{eval, batch_answer_by, count_after_batch, counted, is_own_reply}, declared.topology.Kind.{Kind}};
ghost use Rattle.pipe_types.specs.{declared.topology.StageSpec.{StageSpec}, Counts.{Rose}};
ghost use Rattle.stage_callback.specs.declared.answers.Said.{Said};
ghost use Rattle.stage_callback.specs.Callbacks.{can_arm, is_message_for, is_passed, is_ready, is_all_successful, is_prepared_answer, is_batch_answer, is_failed_answer, HasOwnText, failed_reply, said_with};
ghost use Rattle.stage_callback.specs.Laws.{Keeps, KeepsBatch, KeepsChunk, KeepsFailed, Law, RoseExactly, free};

use crate::{BatchReply, FailedReply, Prepared};
use pipe_types::message::{Batch, Message, Reply};
use pipe_types::numbers::MsgNo;
use pipe_types::reason::Reason;
use pipe_types::topology::{Kind, StageSpec};
use std::alloc::AllocError;

/// What a stage calls on its messages, used as `Box<dyn Callback + Send>`.
///
/// The built-in kinds, `Kind::Steps` and `Kind::Lines`, answer by the rules of the spec that they were armed with.
/// A callback of the kind `Kind::Own` answers as it likes, within the shapes stated here, never with the reason
/// `sink`, and counts its calls, its answers other than success, and how often it was reset. What else it says of its
/// answers is its `law`, which no call changes. Every error is want of memory, and the callback is then as it was.
pub trait Callback: Drop {
    /// Which of the three kinds it is.
    ghost kind: { Self → Kind };

    /// The spec that it was armed with.
    ghost spec: { Self → StageSpec };

    /// How many messages a built-in kind has seen since it was armed or reset. It stands still at 2^64 - 1, far above
    /// what a run can have.
    ghost count: { Self → ℕ };

    /// How many calls a user's own kind has had.
    ghost calls: { Self → ℕ };

    /// How many answers other than success a user's own kind has given.
    ghost bad: { Self → ℕ };

    /// How often a user's own kind was reset.
    ghost resets: { Self → ℕ };

    /// What it says of its answers to what it is shown. An `impl` that leaves it out says nothing, and owes nothing.
    ghost law: { Self → Law } = { λ _. free };

    /// Whether it tells its answers.
    ghost told: { Self → Bool };

    /// Its answers so far, oldest first, where it tells them.
    ghost said: { Self → List Said };

    fn kind(&self) -> Kind
        ensures { result ≡ kind self.now };

    /// Keeps the spec, and counts from 0.
    fn arm(&mut self, stage: &StageSpec) -> Result<(), AllocError>
        requires { IsTrue (can_arm stage.now) }
        ensures same_kind { (kind self.new ≡ kind self.old) × (told self.new ≡ told self.old) }
        ensures same_law { law self.new ≡ law self.old }
        ensures same_resets { resets self.new ≡ resets self.old }
        ensures armed { OnOk result ((spec self.new ≡ stage.now) × (count self.new ≡ 0)) }
        ensures never_fall { (calls self.old ≤ calls self.new) × (bad self.old ≤ bad self.new) }
        ensures built_in { kind self.old ≢ Kind.Own
            → (calls self.new ≡ calls self.old) × (bad self.new ≡ bad self.old) }
        ensures said { IsTrue (told self.old) → said self.new ≡ said self.old }
        ensures unchanged { OnErr result ((spec self.new ≡ spec self.old) × (count self.new ≡ count self.old)
            × (calls self.new ≡ calls self.old) × (bad self.new ≡ bad self.old)) };

    /// Counts from 0.
    fn reset(&mut self)
        ensures same_kind { (kind self.new ≡ kind self.old) × (told self.new ≡ told self.old) }
        ensures same_law { law self.new ≡ law self.old }
        ensures resets { kind self.old ≡ Kind.Own → RoseExactly 1 (resets self.old) (resets self.new) }
        ensures same_spec { spec self.new ≡ spec self.old }
        ensures count { count self.new ≡ 0 }
        ensures never_fall { (calls self.old ≤ calls self.new) × (bad self.old ≤ bad self.new) }
        ensures built_in { kind self.old ≢ Kind.Own
            → (calls self.new ≡ calls self.old) × (bad self.new ≡ bad self.old) }
        ensures said { IsTrue (told self.old) → said self.new ≡ said self.old };

    /// Shows it a chunk, before its messages one by one. A built-in kind is always ready.
    fn prepare(&mut self, messages: &[Message]) -> Result<Prepared, AllocError>
        ensures same_kind { (kind self.new ≡ kind self.old) × (told self.new ≡ told self.old) }
        ensures same_law { law self.new ≡ law self.old }
        ensures same_resets { resets self.new ≡ resets self.old }
        ensures same_spec { spec self.new ≡ spec self.old }
        ensures shape { IfOk result (λ answer. IsTrue (is_prepared_answer answer)) }
        ensures lawful { IfOk result (λ answer. KeepsChunk (law self.old) messages.now answer) }
        ensures built_in { kind self.old ≢ Kind.Own → IfOk result (λ answer.
            (answer ≡ Prepared.Ready) × (count self.new ≡ count self.old)) }
        ensures no_counts { kind self.old ≢ Kind.Own
            → (calls self.new ≡ calls self.old) × (bad self.new ≡ bad self.old) }
        ensures never_fall { (calls self.old ≤ calls self.new) × (bad self.old ≤ bad self.new) }
        ensures bad { kind self.old ≡ Kind.Own → IfOk result (λ answer.
            is_ready answer ≡ false → Rose (bad self.old) (bad self.new)) }
        ensures said { IsTrue (told self.old) → said self.new ≡ said_with Said.Prepared (said self.old) result }
        ensures unchanged { OnErr result ((count self.new ≡ count self.old)
            × (calls self.new ≡ calls self.old) × (bad self.new ≡ bad self.old)) };

    /// Handles one message.
    fn message(&mut self, message: Message) -> Result<Reply, AllocError>
        ensures same_kind { (kind self.new ≡ kind self.old) × (told self.new ≡ told self.old) }
        ensures same_law { law self.new ≡ law self.old }
        ensures same_resets { resets self.new ≡ resets self.old }
        ensures same_spec { spec self.new ≡ spec self.old }
        // A message that passes stays the same message, for one of the stage's batchers, and not too long.
        ensures shape { IsTrue (is_message_for (spec self.old).batchers message)
            → IfOk result (λ reply. IsTrue (is_own_reply (spec self.old).batchers message reply)) }
        ensures lawful { IfOk result (λ reply. Keeps (law self.old) message reply) }
        ensures built_in { kind self.old ≢ Kind.Own → IfOk result (λ reply.
            (reply ≡ eval (spec self.old) (count self.old) message)
            × (count self.new ≡ counted (count self.old) 1)) }
        ensures no_counts { kind self.old ≢ Kind.Own
            → (calls self.new ≡ calls self.old) × (bad self.new ≡ bad self.old) }
        ensures never_fall { (calls self.old ≤ calls self.new) × (bad self.old ≤ bad self.new) }
        // A user's own kind counts the call, and each answer that is no success.
        ensures calls { kind self.old ≡ Kind.Own → OnOk result (Rose (calls self.old) (calls self.new)) }
        ensures bad { kind self.old ≡ Kind.Own → IfOk result (λ reply.
            is_passed reply ≡ false → Rose (bad self.old) (bad self.new)) }
        ensures said { IsTrue (told self.old) → said self.new ≡ said_with Said.Message (said self.old) result }
        ensures unchanged { OnErr result ((count self.new ≡ count self.old)
            × (calls self.new ≡ calls self.old) × (bad self.new ≡ bad self.old)) };

    /// Handles a batch, and gives its text: of a user's own kind the payload and LF of each successful message.
    fn batch(&mut self, batch: &Batch) -> Result<BatchReply, AllocError>
        ensures same_kind { (kind self.new ≡ kind self.old) × (told self.new ≡ told self.old) }
        ensures same_law { law self.new ≡ law self.old }
        ensures same_resets { resets self.new ≡ resets self.old }
        ensures same_spec { spec self.new ≡ spec self.old }
        // One outcome a message, none with the reason `sink`.
        ensures shape { IfOk result (λ reply. IsTrue (is_batch_answer batch.now.messages reply)) }
        ensures lawful { IfOk result (λ reply. KeepsBatch (law self.old) batch.now reply) }
        ensures built_in { kind self.old ≢ Kind.Own → IfOk result (λ reply.
            (reply ≡ batch_answer_by (kind self.old) (spec self.old) (count self.old) batch.now.messages)
            × (count self.new ≡ count_after_batch (spec self.old) (count self.old) batch.now.messages)) }
        ensures own_text { kind self.old ≡ Kind.Own → IfOk result (λ reply. HasOwnText batch.now.messages reply) }
        ensures no_counts { kind self.old ≢ Kind.Own
            → (calls self.new ≡ calls self.old) × (bad self.new ≡ bad self.old) }
        ensures never_fall { (calls self.old ≤ calls self.new) × (bad self.old ≤ bad self.new) }
        // A user's own kind counts the call, and each answer that is no success.
        ensures calls { kind self.old ≡ Kind.Own → OnOk result (Rose (calls self.old) (calls self.new)) }
        ensures bad { kind self.old ≡ Kind.Own → IfOk result (λ reply.
            is_all_successful reply ≡ false → Rose (bad self.old) (bad self.new)) }
        ensures said { IsTrue (told self.old) → said self.new ≡ said_with Said.Batch (said self.old) result }
        ensures unchanged { OnErr result ((count self.new ≡ count self.old)
            × (calls self.new ≡ calls self.old) × (bad self.new ≡ bad self.old)) };

    /// Shows it a message that failed. A built-in kind gives its spec's reason, where it has one.
    fn failed(&mut self, no: MsgNo, reason: &Reason) -> Result<FailedReply, AllocError>
        ensures same_kind { (kind self.new ≡ kind self.old) × (told self.new ≡ told self.old) }
        ensures same_law { law self.new ≡ law self.old }
        ensures same_resets { resets self.new ≡ resets self.old }
        ensures same_spec { spec self.new ≡ spec self.old }
        ensures shape { kind self.old ≡ Kind.Own → IfOk result (λ answer. IsTrue (is_failed_answer answer)) }
        ensures lawful { IfOk result (λ answer. KeepsFailed (law self.old) no reason.now answer) }
        ensures built_in { kind self.old ≢ Kind.Own → IfOk result (λ answer.
            (answer ≡ failed_reply (spec self.old).failed) × (count self.new ≡ count self.old)) }
        ensures no_counts { kind self.old ≢ Kind.Own
            → (calls self.new ≡ calls self.old) × (bad self.new ≡ bad self.old) }
        ensures never_fall { (calls self.old ≤ calls self.new) × (bad self.old ≤ bad self.new) }
        ensures said { IsTrue (told self.old) → said self.new ≡ said_with Said.Failed (said self.old) result }
        ensures unchanged { OnErr result ((count self.new ≡ count self.old)
            × (calls self.new ≡ calls self.old) × (bad self.new ≡ bad self.old)) };
}
