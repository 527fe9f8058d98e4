//! A whole text judged.

ghost use Rattle.std.specs.Prelude.{◌≡◌, ◌++◌, ℕ, List, true, IfOk};
ghost use Rattle.pipe_types.specs.Sound.{IsSound};
ghost use Rattle.pipe_model.specs.{History.{History}, Legal.{is_legal}};
ghost use Rattle.journal_texts.specs.Steps.{journal_text};
ghost use Rattle.reading_laws.specs.Fields.{AreHeld, IsCountable};
ghost use Rattle.journal_audit.specs.{declared.verdict.Verdict.TheVariants.{Legal}, Verdicts.{summary_of, verdict_in, IsSaid}};

use crate::pieces::Auditing;
use crate::verdict::Verdict;
use pipe_types::topology::Topology;
use std::alloc::{AllocError, Global};

/// Whether the text is that of a journal that is legal for the topology, with nothing or anything behind its end line, and what
/// that journal's steps come to; else its first bad line with its cause. The time is linear in the text, and nothing is kept but
/// a run that has the steps so far.
pub fn audit(alloc: Global, topology: &Topology, bytes: &[u8]) -> Result<Verdict, AllocError>
    requires sound { IsSound topology.now }
    ensures verdict { IfOk result (λ verdict. verdict ≡ verdict_in topology.now bytes.now) }
    // A legal verdict is that of a legal journal, whose text this is; a bad one names the first bad line and its cause.
    ensures said { IfOk result (IsSaid topology.now bytes.now) }
    // The text of each legal journal is found legal, with what the journal comes to.
    ensures found { (journal : History) (behind : List ℕ) → is_legal topology.now journal ≡ true → AreHeld journal → IsCountable journal → bytes.now ≡ journal_text journal ++ behind → IfOk result (λ verdict. verdict ≡ Legal (summary_of topology.now journal)) }
{
    let fresh = Auditing::new(alloc, topology)?;
    let audit = fresh.push(bytes)?;
    Ok(audit.verdict())
}
