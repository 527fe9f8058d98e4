//! What bounds all work of a legal journal of a sound topology: the steps other than those that ask a source, find it
//! quiet or tell the time.
//!
//! Each function is a law: it does nothing, and its clause states the law. `specs/` names a bound for each kind of step,
//! and `proofs/` has the facts behind them.
#![tactic(auto)]

ghost use Rattle.std.specs.Prelude.{◌≡◌, ◌∷◌, ◌<◌, ◌≤◌, ℕ, true, IsTrue};
ghost use Rattle.pipe_types.specs.{declared.numbers.StageNo.{StageNo}, declared.step.Step.{Step}, declared.step.Step.TheVariants.{Fetch, Quiet, Tick}};
ghost use Rattle.pipe_types.specs.{declared.topology.Topology.{Topology}, Sound.{IsSound}};
ghost use Rattle.pipe_model.specs.{History.{History}, Legal.{is_legal, quiet_row}};
ghost use Rattle.work_laws.specs.{Work.{work_done, is_work}, Limits.{most_work}, Left.{work_left}};

/// A journal has at most so many steps of work, however long it runs.
#[tactic(auto, using(crate::proofs::Laws::work_law))]
pub fn work_is_bounded()
    ensures { (topology : Topology) (before : History) →
        IsSound topology → IsTrue (is_legal topology before) → work_done before ≤ most_work topology }
{}

/// Each step of work leaves less to do.
#[tactic(auto, using(crate::proofs::Leaving::work_lowers))]
pub fn work_leaves_less()
    ensures { (topology : Topology) (before : History) (step : Step) →
        IsSound topology → IsTrue (is_legal topology (step ∷ before)) → is_work step ≡ true → work_left topology (step ∷ before) < work_left topology before }
{}

/// So does each quiet answer while fewer stand in a row than the idle limit.
#[tactic(auto, using(crate::proofs::Leaving::quiet_lowers))]
pub fn quiet_answers_leave_less()
    ensures { (topology : Topology) (before : History) (s : StageNo) →
        quiet_row before < topology.idle_limit → work_left topology (Quiet s ∷ before) < work_left topology before }
{}

/// A fetch leaves as much to do.
#[tactic(auto, using(crate::proofs::Leaving::fetch_keeps))]
pub fn fetches_leave_as_much()
    ensures { (topology : Topology) (before : History) (s : StageNo) (n : ℕ) → work_left topology (Fetch s n ∷ before) ≡ work_left topology before }
{}

/// So does a tick.
#[tactic(auto, using(crate::proofs::Leaving::tick_keeps))]
pub fn ticks_leave_as_much()
    ensures { (topology : Topology) (before : History) (t : ℕ) → work_left topology (Tick t ∷ before) ≡ work_left topology before }
{}
