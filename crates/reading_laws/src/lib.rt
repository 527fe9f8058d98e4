//! What the text of a journal spells, and that the text of each legal journal spells that journal.
//!
//! `specs/Text` reads a text line by line, with the steps so far, and `specs/Named` says which message a reply belongs to,
//! which is not written. Each function is a law: it does nothing, and its clause states the law. `proofs/` has the facts behind
//! them.
#![tactic(auto)]

ghost use Rattle.std.specs.Prelude.{◌≡◌, ℕ, List, ◌∷◌, ◌++◌, true, None, Ok, IsTrue};
ghost use Rattle.pipe_types.specs.{declared.step.Step.{Step}, declared.topology.Topology.{Topology}};
ghost use Rattle.pipe_model.specs.{History.{History}, Legal.{is_legal}};
ghost use Rattle.journal_texts.specs.Steps.{journal_text};
ghost use Rattle.line_reading.specs.{declared.fault.Fault.{Fault}, Spelling.{IsSpelt}};
ghost use Rattle.reading_laws.specs.{Named.{named_at}, Fields.{IsHeld, AreHeld, IsCountable}, Text.{Causes, text_in, IsTextOf}};

/// Each step of a legal journal has a line that is read as that step.
#[tactic(auto, using(crate::proofs::Legal::legal_spelt))]
pub fn legal_steps_can_be_spelt()
    ensures { (topology : Topology) (before : History) (step : Step) →
        IsTrue (is_legal topology (step ∷ before)) → IsHeld step → IsSpelt (named_at topology before) step }
{}

/// The text of a legal journal spells that journal, whatever stands behind its end line, also to a reading that judges each step
/// and finds a legal one good.
pub fn texts_of_legal_journals_are_read()
    ensures { (causes : Causes Fault) (topology : Topology) (journal : History) (behind : List ℕ) →
        causes.judge true ≡ None → IsTrue (is_legal topology journal) → AreHeld journal → IsCountable journal → text_in causes topology (journal_text journal ++ behind) ≡ Ok journal }
{}

/// A text that spells a journal is the text of that journal, with nothing or anything behind its end line.
pub fn read_texts_are_of_their_journals()
    ensures { (causes : Causes Fault) (topology : Topology) (text : List ℕ) (journal : History) → text_in causes topology text ≡ Ok journal → IsTextOf journal text }
{}
