//! Laws of what is enough, without code.

ghost use Rattle.std.specs.Prelude.{◌≡◌, ◌≤◌, None};
ghost use Rattle.config_flow.specs.Flow.{flow_topology_of};
ghost use Rattle.topology_needs.specs.Needs.{need_of, boxes_of, shortage_of};

use crate::stock::Boxes;
use pipe_types::topology::{Kind, Topology};

/// Where no kind is short there are at least as many boxes of each as posts that need one.
pub fn nothing_is_short(topology: &Topology, boxes: &Boxes, kind: Kind)
    requires { shortage_of topology.now boxes.now ≡ None }
    ensures { need_of topology.now kind ≤ boxes_of boxes.now kind }
{}

/// The topology of `flow` needs one box, of the kind of steps.
pub fn flow_needs_one_box(source: &str, prefix: &str)
    ensures steps { need_of (flow_topology_of source.now prefix.now) Kind.Steps ≡ 1 }
    ensures lines { need_of (flow_topology_of source.now prefix.now) Kind.Lines ≡ 0 }
    ensures own { need_of (flow_topology_of source.now prefix.now) Kind.Own ≡ 0 }
{}
