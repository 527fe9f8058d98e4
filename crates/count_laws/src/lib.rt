//! What bounds the steps of a legal journal of a sound topology, so that a run ends.
//!
//! Steps that take a record in or move a message on, dispatches that send, takes, asks, answers, lives, kills for
//! crashes and control steps: each kind comes no more often than a number that the topology gives.
//! Each function is a law: it does nothing, and its clause states the law. `proofs/` has the facts behind them.
#![tactic(auto)]

ghost use Rattle.std.specs.Prelude.{◌≡◌, ℕ, ◌+◌, ◌*◌, ◌≤◌, length, false, IsTrue};
ghost use Rattle.pipe_types.specs.{declared.numbers.StageNo.{StageNo}, declared.numbers.SubNo.{SubNo}, declared.numbers.Post.{Post}, declared.topology.Topology.{Topology}};
ghost use Rattle.pipe_types.specs.{Numbers.{post, same_stage, stage}, Stages.{spec_of}, Sound.{IsSound}};
ghost use Rattle.pipe_model.specs.{History.{History, incarnation, controls}, Posts.{is_out, crashes}, Counting.{as_number}, Lives.{generation}, Ledger.{max_in}};
ghost use Rattle.pipe_model.specs.Legal.{is_legal, has_role, is_producer_role, takes_role, has_ended};
ghost use Rattle.count_laws.specs.Counts.{movers, senders, takes, asks, begun, answered, kills, crash_kills, child_starts};

/// Steps that take a record in, move a message on or lose one: each message moves at most 21 times.
#[tactic(auto, using(crate::proofs::Laws::movers_law))]
pub fn moves_are_few()
    ensures { (topology : Topology) (before : History) →
        IsSound topology → IsTrue (is_legal topology before) → movers topology before ≤ 21 * topology.record_limit }
{}

/// Dispatches that send, of batches too.
#[tactic(auto, using(crate::proofs::Laws::senders_law))]
pub fn dispatches_are_few()
    ensures { (topology : Topology) (before : History) →
        IsSound topology → IsTrue (is_legal topology before) → senders topology before ≤ length topology.stages * (topology.record_limit + 1) }
{}

/// Takes of a consumer.
#[tactic(auto, using(crate::proofs::Laws::takes_law))]
pub fn takes_are_few()
    ensures { (topology : Topology) (before : History) (c : StageNo) →
        IsSound topology → IsTrue (is_legal topology before) → takes before c ≤ topology.record_limit + 1 }
{}

/// Asks on a subscription.
#[tactic(auto, using(crate::proofs::Laws::asks_law))]
pub fn asks_are_few()
    ensures { (topology : Topology) (before : History) (u : SubNo) →
        IsSound topology → IsTrue (is_legal topology before) →
        asks before u ≤ topology.record_limit + 1 + max_in (spec_of topology u.consumer) }
{}

/// A post is answered as often as it was put out, but for once while it is out.
#[tactic(auto, using(crate::proofs::Laws::answers_law))]
pub fn answers_have_jobs()
    ensures { (topology : Topology) (before : History) (p : Post) →
        IsTrue (is_legal topology before) → answered before p + as_number (is_out before p) ≤ begun before p }
{}

/// A stage lives once more at most for each kill or halt.
#[tactic(auto, using(crate::proofs::Laws::lives_law))]
pub fn lives_are_few()
    ensures { (topology : Topology) (before : History) (s : StageNo) → IsTrue (is_legal topology before) → incarnation before s ≤ 1 + kills before }
{}

/// Generations of a pair are fewer than the lives of both.
#[tactic(auto, using(crate::proofs::Laws::generations_law))]
pub fn generations_are_few()
    ensures { (topology : Topology) (before : History) (c p : StageNo) →
        generation topology before c p + 1 ≤ incarnation before c + incarnation before p }
{}

/// Kills of a stage for its crashes.
#[tactic(auto, using(crate::proofs::Laws::crash_kills_law))]
pub fn crash_kills_are_few()
    ensures { (topology : Topology) (before : History) (s : StageNo) →
        IsSound topology → IsTrue (is_legal topology before) → IsTrue (has_role topology s takes_role) →
        crash_kills before s ≤ topology.record_limit + 1 }
{}

/// Control steps.
#[tactic(auto, using(crate::proofs::Laws::controls_law))]
pub fn controls_are_few()
    ensures { (topology : Topology) (before : History) → IsTrue (is_legal topology before) → controls before ≤ 10000 }
{}

/// Crashes of the children of a message.
#[tactic(auto, using(crate::proofs::Laws::crashes_law))]
pub fn crashes_are_few()
    ensures { (topology : Topology) (before : History) (n : ℕ) → IsTrue (is_legal topology before) → crashes before n ≤ 4 }
{}

/// A message is started as a child once more at most than its children crash, and so at most 5 times.
pub fn child_starts_are_few()
    ensures within { (topology : Topology) (before : History) (n : ℕ) → IsTrue (is_legal topology before) → child_starts before n ≤ 1 + crashes before n }
    ensures few { (topology : Topology) (before : History) (n : ℕ) → IsTrue (is_legal topology before) → child_starts before n ≤ 5 }
{}

/// A source that has ended has no fetch out, so it ends once.
#[tactic(auto, using(crate::proofs::Laws::ended_law))]
pub fn ended_sources_rest()
    ensures { (topology : Topology) (before : History) (s : StageNo) →
        IsTrue (is_legal topology before) → IsTrue (has_role topology s is_producer_role) → same_stage s (stage 0) ≡ false →
        IsTrue (has_ended before s) → is_out before (post s 0) ≡ false }
{}
