//! Rules that never crash.

ghost use Rattle.std.specs.Prelude.{◌≡◌};
ghost use Rattle.stage_job.specs.Chunks.{never_crashes as never_crash, may_crash as may_crash_by};

use pipe_types::topology::Rule;

/// Whether no rule is a crash. A built-in callback with such rules answers no chunk with a crash.
pub fn never_crashes(rules: &[Rule]) -> bool
    ensures { result ≡ never_crash rules.now }
{
    rules.iter().all(|rule| !may_crash(rule))
}

fn may_crash(rule: &Rule) -> bool
    ensures { result ≡ may_crash_by rule.now }
{
    matches!(rule, Rule::Crash(_))
}
