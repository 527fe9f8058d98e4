//! What holds of every legal journal of a sound topology.
//!
//! Each function is a law: it does nothing, and its clause states the law, whose words stand in the specification.
//! No step but those that move messages changes a place; journals continue one another; what is settled stays so;
//! no subscription is sent more than it asked, handles more than it was sent, or has more in flight than its greatest
//! demand; each message has one place, is acknowledged once, and at the end none is left. The last law has them all, as
//! the top call's contract names them. `proofs/` has the facts behind them, for the proofs of the layers above.
#![tactic(auto)]

ghost use Rattle.std.specs.Prelude.{◌≡◌, ◌≤◌, ℕ, ◌∷◌, length, IsTrue};
ghost use Rattle.pipe_types.specs.{declared.numbers.StageNo.{StageNo}, declared.numbers.SubNo.{SubNo}, declared.topology.Topology.{Topology}, declared.step.Step.{Step}};
ghost use Rattle.pipe_types.specs.Sound.{IsSound};
ghost use Rattle.pipe_model.specs.{History.{History}, Flow.{place}, Begins.{BeginsWith}, Legal.{is_legal}};
ghost use Rattle.pipe_model.specs.Claims.{KeepsLedger, HasOnePlaceEach, StaysSettled, LegStaysSettled, LeavesNothing, IsAcknowledgedOnce, AcknowledgesEverything};
ghost use Rattle.pipe_laws.specs.KeptClaims.{KeepsClaims};

/// A tick moves no message.
pub fn tick_moves_nothing()
    ensures { (topology : Topology) (before : History) (time n : ℕ) →
        place topology (Step.Tick time ∷ before) n ≡ place topology before n }
{}

/// A quiet producer moves no message.
pub fn quiet_moves_nothing()
    ensures { (topology : Topology) (before : History) (s : StageNo) (n : ℕ) →
        place topology (Step.Quiet s ∷ before) n ≡ place topology before n }
{}

/// An ask moves no message.
pub fn ask_moves_nothing()
    ensures { (topology : Topology) (before : History) (u : SubNo) (count n : ℕ) →
        place topology (Step.Ask u count ∷ before) n ≡ place topology before n }
{}

/// A fetch moves no message.
pub fn fetch_moves_nothing()
    ensures { (topology : Topology) (before : History) (s : StageNo) (count n : ℕ) →
        place topology (Step.Fetch s count ∷ before) n ≡ place topology before n }
{}

/// A refused control line moves no message.
pub fn refuse_moves_nothing()
    ensures { (topology : Topology) (before : History) (line n : ℕ) →
        place topology (Step.Refuse line ∷ before) n ≡ place topology before n }
{}

/// A journal begins with itself.
#[tactic(auto, using(crate::proofs::Journals::begins_with_itself))]
pub fn journal_begins_with_itself()
    ensures { (whole : History) → BeginsWith whole whole }
{}

/// A journal begins with what its own beginning begins with.
#[tactic(auto, using(crate::proofs::Journals::begins_through))]
pub fn beginning_of_beginning()
    ensures { (whole middle seen : History) →
        BeginsWith whole middle → BeginsWith middle seen → BeginsWith whole seen }
{}

/// One more step keeps each beginning.
#[tactic(auto, using(crate::proofs::Journals::begins_after))]
pub fn step_keeps_beginning()
    ensures { (whole seen : History) (step : Step) → BeginsWith whole seen → BeginsWith (step ∷ whole) seen }
{}

/// Of two beginnings of one journal the longer begins with the shorter.
#[tactic(auto, using(crate::proofs::Journals::begins_longer))]
pub fn longer_begins_with_shorter()
    ensures { (whole longer shorter : History) →
        BeginsWith whole longer → BeginsWith whole shorter → length shorter ≤ length longer → BeginsWith longer shorter }
{}

/// A message that is acknowledged or lost stays so.
#[tactic(auto, using(crate::proofs::Settled::stays_settled))]
pub fn settled_stays()
    ensures { (topology : Topology) (later before : History) (n : ℕ) → StaysSettled topology later before n }
{}

/// A leg that is answered or lost stays so.
#[tactic(auto, using(crate::proofs::Settled::leg_stays_settled))]
pub fn settled_leg_stays()
    ensures { (topology : Topology) (later before : History) (b leg : ℕ) → LegStaysSettled topology later before b leg }
{}

/// On every subscription what was handled was sent, what was sent was asked, and no more than the consumer's greatest
/// demand is in flight, kills and restarts included.
pub fn ledgers_are_kept()
    ensures { (topology : Topology) (before : History) (u : SubNo) →
        IsSound topology → IsTrue (is_legal topology before) → KeepsLedger topology before u }
{}

/// The accepted numbers, and no others, have a place, and it names a live stage, a batch in progress, or an end.
pub fn each_message_has_one_place()
    ensures { (topology : Topology) (before : History) → IsTrue (is_legal topology before) → HasOnePlaceEach topology before }
{}

/// A journal that is drained or halted leaves no accepted message unsettled.
pub fn ends_leave_nothing()
    ensures { (topology : Topology) (before : History) → IsTrue (is_legal topology before) → LeavesNothing topology before }
{}

/// An acknowledged message stands exactly once among the acknowledgements, under its producer and on the side of its
/// outcome, and no other message stands there.
pub fn each_message_is_acknowledged_once()
    ensures { (topology : Topology) (before : History) (n : ℕ) →
        IsSound topology → IsTrue (is_legal topology before) → IsAcknowledgedOnce topology before n }
{}

/// A drained journal that loses nothing acknowledges every accepted message exactly once.
pub fn drains_acknowledge_everything()
    ensures { (topology : Topology) (before : History) →
        IsSound topology → IsTrue (is_legal topology before) → AcknowledgesEverything topology before }
{}

/// A legal journal of a sound topology keeps every claim, whatever steps made it.
#[tactic(auto, using(crate::proofs::Claims::keeps_claims))]
pub fn legal_journals_keep_their_claims()
    ensures { (topology : Topology) (before : History) →
        IsSound topology → IsTrue (is_legal topology before) → KeepsClaims topology before }
{}
