//! The reading and the printer agree. Each function is a law: it does nothing, and its clause states the law.

ghost use Rattle.std.specs.Prelude.{◌≡◌, ℕ, List, Ok};
ghost use Rattle.pipe_types.specs.declared.step.Step.{Step};
ghost use Rattle.journal_texts.specs.Steps.{step_text};
ghost use Rattle.line_reading.specs.{Lines.{Jobs, step_in}, Spelling.{IsSpelt}};

/// The line of a step that can be spelt is read as that step.
#[tactic(auto, using(crate::proofs::Again::step_again))]
pub fn printed_lines_are_read()
    ensures { (jobs : Jobs) (step : Step) → IsSpelt jobs step → step_in jobs (step_text step) ≡ Ok step }
{}

/// A line that is read as a step is the line of that step, which can be spelt.
#[tactic(auto, using(crate::proofs::Back::step_spelt))]
pub fn read_lines_are_printed()
    ensures { (jobs : Jobs) (line : List ℕ) (step : Step) → step_in jobs line ≡ Ok step → (line ≡ step_text step) × IsSpelt jobs step }
{}
