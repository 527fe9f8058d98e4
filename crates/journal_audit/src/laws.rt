//! What an audit promises of journals, as a law. The function does nothing, and its clause states the law.

ghost use Rattle.std.specs.Prelude.{◌≡◌, ◌++◌, ℕ, List, true};
ghost use Rattle.pipe_types.specs.declared.topology.Topology.{Topology};
ghost use Rattle.pipe_model.specs.Legal.{is_legal};
ghost use Rattle.journal_texts.specs.Steps.{journal_text};
ghost use Rattle.journal_audit.specs.{declared.verdict.Verdict.TheVariants.{Legal}, Verdicts.{summary_of, verdict_in}};

use journal_reading::laws::journals_are_read_back;
use pipe_journal::Journal;

/// The text of any journal that is legal for a topology is found legal, with what its steps come to, whatever stands behind its
/// end line. It looks at the steps once.
pub fn journals_are_found_legal(journal: &Journal)
    ensures { (topology : Topology) (behind : List ℕ) → is_legal topology journal.now.steps ≡ true → verdict_in topology (journal_text journal.now.steps ++ behind) ≡ Legal (summary_of topology journal.now.steps) }
{
    journals_are_read_back(journal);
}
