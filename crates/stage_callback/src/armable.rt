//! Whether a callback may be armed with a spec.

ghost use Rattle.std.specs.{Prelude.{◌≡◌}, List.{list_all}};
ghost use Rattle.stage_callback.specs.Callbacks.{can_arm, is_countable as is_countable_in, routes_below as routes_below_in};

use pipe_types::topology::{Rule, StageSpec};

/// Whether a callback may be armed with the spec: each `fail_every` has at least 1, and each route names a batcher
/// below the spec's number of batchers.
pub fn may_arm(spec: &StageSpec) -> bool
    ensures { result ≡ can_arm spec.now }
{
    let rules = spec.rules.as_slice();
    all_countable(rules) && all_routes_below(spec.batchers, rules)
}

fn all_countable(rules: &[Rule]) -> bool
    ensures { result ≡ list_all is_countable_in rules.now }
{
    rules.iter().all(|rule| is_countable(rule))
}

fn all_routes_below(batchers: u16, rules: &[Rule]) -> bool
    ensures { result ≡ list_all (routes_below_in batchers) rules.now }
{
    rules.iter().all(|rule| routes_below(batchers, rule))
}

fn is_countable(rule: &Rule) -> bool
    ensures { result ≡ is_countable_in rule.now }
{
    match rule {
        Rule::FailEvery(every) => 0 < *every,
        _ => true,
    }
}

fn routes_below(batchers: u16, rule: &Rule) -> bool
    ensures { result ≡ routes_below_in batchers rule.now }
{
    match rule {
        Rule::Route(_, batcher, _) => *batcher < batchers,
        _ => true,
    }
}
