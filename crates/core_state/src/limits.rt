//! The limits on restarts.

ghost use Rattle.std.specs.Prelude.{◌≡◌};
ghost use Rattle.pipe_model.specs.Legal.{limit_of};

use pipe_types::numbers::StageNo;
use pipe_types::topology::Topology;

/// The place of the stage's limit on restarts.
pub fn limit_of(topology: &Topology, stage: StageNo) -> usize
    ensures { result ≡ limit_of topology.now stage }
{
    match topology.stages.find(stage) {
        Some(spec) => spec.limit as usize,
        None => 0,
    }
}
