//! The boxes that a topology needs.

ghost use Rattle.std.specs.Prelude.{◌≡◌, ◌<◌, ◌^◌, sum_by, Some, None, if◌then◌else◌};
ghost use Rattle.pipe_types.specs.Sound.{IsSound};
ghost use Rattle.stage_job.specs.Boxes.{same_kind};
ghost use Rattle.topology_needs.specs.Needs.{need_of, posts_of, of_kind, boxes_of, is_short, need_and_have, shortage_of};

use crate::stock::{Boxes, Shortage};
use pipe_types::topology::{Kind, Role, StageSpec, Topology};

/// How many posts of the stage have a callback: one of a processor or a batch processor, `max` of a supervisor, and none
/// of another stage.
pub fn posts(stage: &StageSpec) -> usize
    ensures { result ≡ posts_of stage.now }
{
    match stage.role {
        Role::Producer | Role::Batcher => 0,
        Role::Processor | Role::BatchProcessor => 1,
        Role::Supervisor => stage.max as usize,
    }
}

/// How many posts of the topology have a callback of this kind. It is at most 1,024.
pub fn need(topology: &Topology, kind: Kind) -> usize
    requires sound { IsSound topology.now }
    ensures { result ≡ need_of topology.now kind }
{
    posts_of_kind(topology.stages.as_slice(), kind)
}

/// The first kind, of steps, lines and own in this order, of which there are fewer boxes than posts that need one.
pub fn shortage(topology: &Topology, boxes: &Boxes) -> Option<Shortage>
    requires sound { IsSound topology.now }
    ensures { result ≡ shortage_of topology.now boxes.now }
{
    if let Some(short) = lack(topology, boxes, Kind::Steps) {
        return Some(short);
    }
    if let Some(short) = lack(topology, boxes, Kind::Lines) {
        return Some(short);
    }
    lack(topology, boxes, Kind::Own)
}

/// The need and the boxes of this kind, where there are too few.
fn lack(topology: &Topology, boxes: &Boxes, kind: Kind) -> Option<Shortage>
    requires sound { IsSound topology.now }
    ensures { result ≡ (if is_short topology.now boxes.now kind then Some (need_and_have topology.now boxes.now kind) else None) }
{
    let need = need(topology, kind);
    let have = boxes_with(boxes, kind);
    (have < need).then_some(Shortage { kind, need, have })
}

fn boxes_with(boxes: &Boxes, kind: Kind) -> usize
    ensures { result ≡ boxes_of boxes.now kind }
{
    match kind {
        Kind::Steps => boxes.steps,
        Kind::Lines => boxes.lines,
        Kind::Own => boxes.own,
    }
}

fn posts_of_kind(stages: &[StageSpec], kind: Kind) -> usize
    requires { sum_by posts_of (of_kind kind stages.now) < 2 ^ 64 }
    ensures { result ≡ sum_by posts_of (of_kind kind stages.now) }
{
    stages
        .iter()
        .filter(|stage| is_same(kind, stage.kind))
        .map(posts)
        .sum()
}

fn is_same(wanted: Kind, found: Kind) -> bool
    ensures { result ≡ same_kind wanted found }
{
    wanted == found
}
