//! What a legal journal of a sound topology comes to, column by column, and the laws of its steps that the core takes.
//!
//! `specs/Columns` has a recursion over the steps for each column of the core, so that a step of another kind leaves it as
//! it was by computing alone; `proofs/` has what its calls cite.
#![tactic(auto)]

ghost use Rattle.std.specs.Prelude.{◌≡◌, ℕ, Some, IsTrue};
ghost use Rattle.pipe_types.specs.{declared.numbers.StageNo.{StageNo}, declared.topology.Topology.{Topology}, declared.numbers.SubNo.{SubNo}, Numbers.{same_sub}, Sound.{IsSound}};
ghost use Rattle.pipe_model.specs.{History.{History}, Flow.{sent_to}, Ledger.{came_on}, Legal.{is_legal}, Posts.{in_slot}};
ghost use Rattle.core_laws.specs.{Columns.{child_row, came}, Slots.{child_in_slot}};

/// The child of a slot is the message that was last started there, while it runs, with its crashes.
#[tactic(auto, using(crate::proofs::Children::child_is))]
pub fn children_run_in_slots()
    ensures { (topology : Topology) (before : History) (s : StageNo) (slot : ℕ) →
        IsTrue (is_legal topology before) → child_row topology before s slot ≡ child_in_slot topology before s slot }
{}

/// The message that was last started in a slot came on the subscription of the slot's column, and on no other.
pub fn messages_came_on_one_subscription()
    ensures { (topology : Topology) (before : History) (s : StageNo) (slot n : ℕ) (u : SubNo) →
        IsSound topology → IsTrue (is_legal topology before) → in_slot before s slot ≡ Some n → came_on (sent_to topology before s) (in_slot before s slot) u ≡ same_sub u (came topology before s slot) }
{}
