//! What is shown the journal while a run goes on.
//!
//! A `Watch` is shown the journal again and again, each time with more steps, and may do something with those that are new to
//! it. `NoWatch` does nothing.

ghost use Rattle.std.specs.Prelude.{◌≡◌, ◌≤◌, ◌↔◌, Bool, ℕ, List, None, Option, true, false};
ghost use Rattle.pipe_types.specs.{Counts.{Rose}, declared.topology.Topology.{Topology}};
ghost use Rattle.pipe_model.specs.{Begins.{BeginsWith}, History.{History}, Legal.{is_legal}};
ghost use Rattle.pipe_journal.specs.{Acked.{IsLog}, Watched.{StandsOn, is_failure}};

use crate::journal::Journal;

/// What a watch says of a journal that it was shown.
#[derive(Clone, Copy, PartialEq, Eq)]
pub enum WatchEnd {
    Done,
    Failed,
    OutOfMemory,
}

/// What is shown the journal, by whichever worker holds the pipeline. Its count of faults never falls.
pub trait Watch: Send {
    /// It fits this topology. No call changes it.
    ghost fits: { Self → Topology → Type 0 };

    /// What it began with. No call changes it.
    ghost begun: { Self → Option (List ℕ) };

    /// It has seen this journal.
    ghost stands: { Self → History → Type 0 };

    /// Whether it has answered `Failed`.
    ghost failed: { Self → Bool };

    /// How often something failed.
    ghost faults: { Self → ℕ };

    /// Shows it the journal, whose log is that of its steps, and of which it has seen a part before. For want of memory, and where it
    /// fails, it has seen a part.
    fn seen(&mut self, journal: &Journal) -> WatchEnd
        requires fits { (topology : Topology) × fits self.old topology × (is_legal topology journal.now.steps ≡ true) × IsLog topology journal.now.steps journal.now.acked.rows }
        requires stands { (earlier : History) × stands self.old earlier × BeginsWith journal.now.steps earlier }
        requires whole { failed self.old ≡ false }
        ensures same_fit { (topology : Topology) → fits self.new topology ↔ fits self.old topology }
        ensures same_begun { begun self.new ≡ begun self.old }
        ensures stands { StandsOn result (stands self.new) journal.now.steps }
        ensures failed { failed self.new ≡ is_failure result }
        ensures faults_stay { faults self.old ≤ faults self.new }
        ensures cause { result ≡ WatchEnd.Failed → Rose (faults self.old) (faults self.new) };
}

/// A watch that does nothing.
#[derive(Clone, Copy, Drop)]
pub struct NoWatch;

impl Watch for NoWatch {
    ghost fits = { λ w topology. Unit {0} };

    ghost begun = { λ w. None };

    ghost stands = { λ w steps. Unit {0} };

    ghost failed = { λ w. false };

    ghost faults = { λ w. 0 };

    /// Does nothing.
    fn seen(&mut self, journal: &Journal) -> WatchEnd
        ensures same { self.new ≡ self.old }
        ensures done { result ≡ WatchEnd.Done }
    {
        let _ = journal;
        WatchEnd::Done
    }
}
