//! Topologies with several sources.

ghost use Rattle.std.specs.Prelude.{◌≡◌};
ghost use Rattle.pipe_types.specs.Sound.{is_producer as is_producer_role};
ghost use Rattle.stage_bodies.specs.Several.{is_merge as is_merge_of, has_several_sources as has_several};

use config_rule::sources::is_merged_source;
use pipe_types::topology::{Role, StageSpec};

fn is_producer(spec: &StageSpec) -> bool
    ensures { result ≡ is_producer_role spec.now.role }
{
    match spec.role {
        Role::Producer => true,
        _ => false,
    }
}

fn is_merge(spec: &StageSpec) -> bool
    ensures { result ≡ is_merge_of spec.now.edge }
{
    match &spec.edge {
        Some(text) => is_merged_source(text.as_str().as_bytes()),
        None => false,
    }
}

/// Whether there is more than one producer, or one whose source is a merge: its name begins with `many:`.
pub fn has_several_sources(stages: &[StageSpec]) -> bool
    ensures { result ≡ has_several stages.now }
{
    let mut is_one = false;
    for spec in stages {
        if is_producer(spec) {
            if is_one || is_merge(spec) {
                return true;
            }
            is_one = true;
        }
    }
    false
}
