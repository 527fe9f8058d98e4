//! What holds of the stages of a legal journal of a sound topology.
//!
//! The stages stand in the topology by their numbers; what runs in a stage after a step; the numbers that wait, were
//! closed or handled are no more than were accepted, and those no more than the limit; an open batch is within its
//! size; a child has a slot; a message in a batch is one of its numbers.
//! Each function is a law: it does nothing, and its clause states the law. `proofs/` has the facts behind them.
#![tactic(auto)]

ghost use Rattle.std.specs.{Prelude.{◌≡◌, ℕ, ◌+◌, ◌≤◌, List, ◌∷◌, length, true, Some, IsTrue}, List.{list_any}};
ghost use Rattle.pipe_types.specs.{declared.numbers.StageNo.{StageNo}, declared.numbers.SubNo.{SubNo}, declared.numbers.BatchNo.{BatchNo}, declared.topology.Topology.{Topology}};
ghost use Rattle.pipe_types.specs.{declared.message.Place.TheVariants.{Running, InBatch}, Stages.{spec_of}, Sound.{IsSound}, declared.step.Step.{Step}};
ghost use Rattle.pipe_model.specs.{History.{History, accepted, closed}, Posts.{in_slot, slots}, Flow.{place, batch, view_of, waiting, among, numbers_in, open_batch_by, is_number}};
ghost use Rattle.pipe_model.specs.{Ledger.{handled}, Legal.{is_legal, has_role, is_supervisor_role, batch_size_in, fetches_out}, Standing.{running}};
ghost use Rattle.stage_laws.specs.{Numbered.{IsNumberedTopology}, Running.{running_after}};

/// The stages of a sound topology stand in it by their numbers, and there are at most 64.
#[tactic(auto, using(crate::proofs::Laws::numbered_law))]
pub fn stages_are_numbered()
    ensures { (topology : Topology) → IsSound topology → IsNumberedTopology topology }
{}

/// No more records are accepted than the limit, with all that fetches may still bring.
#[tactic(auto, using(crate::proofs::Laws::records_law))]
pub fn records_are_limited()
    ensures { (topology : Topology) (before : History) →
        IsSound topology → IsTrue (is_legal topology before) → accepted before + fetches_out topology before ≤ topology.record_limit }
{}

/// So at most 2,000,000 records are accepted.
#[tactic(auto, using(crate::proofs::Laws::small_law))]
pub fn records_are_few()
    ensures { (topology : Topology) (before : History) → IsSound topology → IsTrue (is_legal topology before) → accepted before ≤ 2000000 }
{}

/// No more batches are closed than records accepted.
#[tactic(auto, using(crate::proofs::Laws::closed_law))]
pub fn batches_are_few()
    ensures { (topology : Topology) (before : History) → IsTrue (is_legal topology before) → closed before ≤ accepted before }
{}

/// No more units wait in a stage than records were accepted.
#[tactic(auto, using(crate::proofs::Laws::waiting_law))]
pub fn waiting_is_few()
    ensures { (topology : Topology) (before : History) (s : StageNo) →
        IsSound topology → IsTrue (is_legal topology before) → length (waiting topology before s) ≤ accepted before }
{}

/// No more units of a subscription are handled than records were accepted.
#[tactic(auto, using(crate::proofs::Laws::handled_law))]
pub fn handled_is_few()
    ensures { (topology : Topology) (before : History) (u : SubNo) →
        IsSound topology → IsTrue (is_legal topology before) → handled topology before u ≤ accepted before }
{}

/// An open batch is within the batcher's size.
#[tactic(auto, using(crate::proofs::Laws::size_law))]
pub fn open_batches_are_within_size()
    ensures { (topology : Topology) (before : History) (s : StageNo) (key : List ℕ) →
        IsSound topology → IsTrue (is_legal topology before) →
        length (open_batch_by before (view_of topology before) s key) ≤ batch_size_in (spec_of topology s) }
{}

/// A message in a batch is one of its numbers.
#[tactic(auto, using(crate::proofs::Laws::in_batch_law))]
pub fn messages_are_in_batches()
    ensures { (topology : Topology) (before : History) (n : ℕ) (b : BatchNo) →
        place topology before n ≡ Some (InBatch b) → among (numbers_in (batch topology before b.0)) n ≡ true }
{}

/// A message that runs in a supervisor is in one of its slots, and there are at most 16.
#[tactic(auto, using(crate::proofs::Laws::slot_law))]
pub fn children_have_slots()
    ensures { (topology : Topology) (before : History) (s : StageNo) (n : ℕ) →
        IsSound topology → IsTrue (is_legal topology before) → IsTrue (has_role topology s is_supervisor_role) →
        place topology before n ≡ Some (Running s) → IsTrue (list_any (λ slot. is_number (in_slot before s slot) n) slots) }
{}

/// What runs in a stage after a step is a list operation on what ran before it.
#[tactic(auto, using(crate::proofs::Laws::running_law))]
pub fn steps_change_running()
    ensures { (topology : Topology) (before : History) (step : Step) (s : StageNo) →
        IsSound topology → IsTrue (is_legal topology (step ∷ before)) →
        running topology (step ∷ before) s ≡ running_after topology before step s (running topology before s) }
{}
