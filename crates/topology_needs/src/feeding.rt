//! The subscriptions of a topology.

ghost use Rattle.std.specs.Prelude.{◌≡◌, ◌<◌, ◌^◌, ◌==◌, sum_by};
ghost use Rattle.pipe_types.specs.Sound.{IsSound};
ghost use Rattle.topology_needs.specs.Needs.{subscriptions_of, consumers_of};

use pipe_types::topology::{StageSpec, Topology};

/// The number of subscriptions with which the pipeline begins: the pairs of stages of which the second takes from the
/// first. It is at most 4,096.
pub fn subscriptions(topology: &Topology) -> usize
    requires sound { IsSound topology.now }
    ensures { result ≡ subscriptions_of topology.now }
{
    pairs(topology.stages.as_slice())
}

fn pairs(stages: &[StageSpec]) -> usize
    requires { sum_by (consumers_of stages.now) stages.now < 2 ^ 64 }
    ensures { result ≡ sum_by (consumers_of stages.now) stages.now }
{
    stages
        .iter()
        .map(|producer| consumers(stages, producer))
        .sum()
}

/// How many of the stages take from this one.
fn consumers(stages: &[StageSpec], producer: &StageSpec) -> usize
    ensures { result ≡ consumers_of stages.now producer.now }
{
    stages
        .iter()
        .filter(|consumer| producer.feeds(consumer))
        .count()
}
