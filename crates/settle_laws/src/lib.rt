//! What each step of a legal journal acknowledges, and where it is found.
//!
//! A step acknowledges messages of the chunk, the batch or the child that it answers, or of the batches that it serves on no
//! subscription, and no others. So they are found at the cost of what the step touches, whatever came before it.
//! Each function is a law: it does nothing, and its clause states the law. `proofs/` has the facts behind them.
#![tactic(auto)]

ghost use Rattle.std.specs.Prelude.{◌≡◌, ◌∷◌, ℕ, List, true, IsTrue};
ghost use Rattle.pipe_types.specs.declared.numbers.StageNo.{StageNo};
ghost use Rattle.pipe_types.specs.declared.topology.Topology.{Topology};
ghost use Rattle.pipe_types.specs.declared.step.Step.{Step};
ghost use Rattle.pipe_model.specs.History.{History};
ghost use Rattle.pipe_model.specs.Flow.{among};
ghost use Rattle.pipe_model.specs.Legal.{is_legal};
ghost use Rattle.pipe_model.specs.Acknowledgements.{Acknowledgement, acknowledged_by, settled_by, is_acked_successful, is_acked_failed};
ghost use Rattle.pipe_types.specs.Sound.{IsSound};
ghost use Rattle.message_ack.specs.Groups.{AreAcknowledgements};
ghost use Rattle.settle_laws.specs.Settled.{is_newly, settled_last, touched, of_producer, verdicts_of};

/// A step acknowledges no message but those that it touches.
#[tactic(auto, using(crate::proofs::Touched::within_touched))]
pub fn steps_acknowledge_what_they_touch()
    ensures { (topology : Topology) (before : History) (step : Step) (n : ℕ) →
        IsTrue (is_legal topology (step ∷ before)) → is_newly topology before step n ≡ true → among (touched topology before step) n ≡ true }
{}

/// The numbers of an entry are the producer's among those that the step acknowledged.
pub fn entries_are_of_the_last_step()
    ensures successful { (topology : Topology) (before : History) (step : Step) (p : StageNo) →
        settled_by topology before step p is_acked_successful ≡ of_producer topology (step ∷ before) (settled_last topology (step ∷ before)) p is_acked_successful }
    ensures failed { (topology : Topology) (before : History) (step : Step) (p : StageNo) →
        settled_by topology before step p is_acked_failed ≡ of_producer topology (step ∷ before) (settled_last topology (step ∷ before)) p is_acked_failed }
{}

/// What the verdicts on the messages that the last step acknowledged are grouped to, by producer, are the step's acknowledgements.
pub fn grouped_verdicts_are_acknowledgements()
    ensures { (topology : Topology) (before : History) (step : Step) (acks : List Acknowledgement) → IsSound topology → IsTrue (is_legal topology (step ∷ before)) →
        AreAcknowledgements (verdicts_of topology (step ∷ before) (settled_last topology (step ∷ before))) acks → acks ≡ acknowledged_by topology before step }
{}
