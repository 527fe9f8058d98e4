//! What a journal brings in each interval: no more than the allowance, where no producer brings more than its share.
//!
//! A record belongs to the interval of the fetch that brought it, not to that of its own step. Each function is a law: it does
//! nothing, and its clause states the law. `proofs/` has the facts behind them.
#![tactic(auto)]

ghost use Rattle.std.specs.Prelude.{◌≡◌, ◌<◌, ◌≤◌, ℕ, length, IsTrue};
ghost use Rattle.pipe_types.specs.{declared.numbers.StageNo.{StageNo}, declared.topology.Rate.{Rate}, declared.topology.Topology.{Topology}, Sound.{IsSound, producers}};
ghost use Rattle.pipe_model.specs.{History.{History, now}, Legal.{is_legal}};
ghost use Rattle.rate_laws.specs.Rates.{KeepsRate, KeepsShares, came_by, fetched_at, interval_of};

/// No fetch was made later than now.
#[tactic(auto, using(crate::proofs::Times::fetched_by_now))]
pub fn fetches_are_past()
    ensures { (topology : Topology) (before : History) (s : StageNo) →
        IsTrue (is_legal topology before) → fetched_at before s ≤ now before }
{}

/// Nothing came of an interval behind that of the producer's last fetch.
#[tactic(auto, using(crate::proofs::Times::none_later))]
pub fn later_intervals_are_empty()
    ensures { (topology : Topology) (before : History) (p : StageNo) (interval i : ℕ) →
        IsTrue (is_legal topology before) → 0 < interval → interval_of interval (fetched_at before p) < i → came_by p interval i before ≡ 0 }
{}

/// Shares keep the rate.
#[tactic(auto, using(crate::proofs::Laws::keeps_rate))]
pub fn shares_keep_the_rate()
    ensures { (topology : Topology) (rate : Rate) (before : History) →
        IsSound topology → IsTrue (is_legal topology before) → 1 ≤ length (producers topology.stages) →
        KeepsShares topology rate before → KeepsRate rate before }
{}
