//! What reading a text promises, as laws. Each function does nothing, and its clause states the law.

ghost use Rattle.std.specs.Prelude.{◌≡◌, ◌++◌, ℕ, List, Ok, true};
ghost use Rattle.pipe_types.specs.declared.topology.Topology.{Topology};
ghost use Rattle.pipe_model.specs.{History.{History}, Legal.{is_legal}};
ghost use Rattle.journal_texts.specs.Steps.{journal_text};
ghost use Rattle.reading_laws.specs.{Fields.{AreHeld, IsCountable}, Text.{text_in}};
ghost use Rattle.journal_reading.specs.Faults.{unjudged};

use crate::held::hold_steps;
use pipe_journal::Journal;

/// The text of a legal journal spells that journal, whatever stands behind its end line.
pub fn texts_of_legal_journals_are_read()
    ensures { (topology : Topology) (journal : History) (behind : List ℕ) →
        is_legal topology journal ≡ true → AreHeld journal → IsCountable journal → text_in unjudged topology (journal_text journal ++ behind) ≡ Ok journal }
{}

/// The text of any journal that is legal for a topology spells that journal, whatever stands behind its end line: each journal has
/// what a text needs, by the types of its steps. It looks at the steps once.
pub fn journals_are_read_back(journal: &Journal)
    ensures held { AreHeld journal.now.steps }
    ensures countable { IsCountable journal.now.steps }
    ensures again { (topology : Topology) (behind : List ℕ) → is_legal topology journal.now.steps ≡ true → text_in unjudged topology (journal_text journal.now.steps ++ behind) ≡ Ok journal.now.steps }
{
    hold_steps(journal);
}
