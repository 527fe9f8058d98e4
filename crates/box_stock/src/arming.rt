//! Boxes armed for their posts.

ghost use Rattle.std.specs.Prelude.{◌≡◌, ◌≢◌, ◌<◌, ℕ, length, slice_get, OnOk, OnErr};
ghost use Rattle.pipe_types.specs.Sound.{IsSound};
ghost use Rattle.stage_bodies.specs.Jobs.{Both};
ghost use Rattle.box_stock.specs.{Lends.{IsArmedFor, IsSameBox, box_at}, Homes.{joined}};

use crate::boxed::Boxed;
use crate::homes::home_in;
use pipe_types::numbers::Post;
use pipe_types::topology::Topology;
use std::alloc::AllocError;

#[tactic(auto, using(crate::proofs::Armable::armable))]
fn arm_one<C: Boxed>(
    topology: &Topology,
    home: Option<Post>,
    callback: &mut C,
) -> Result<(), AllocError>
    requires sound { IsSound topology.now }
    ensures armed { OnOk result (IsArmedFor topology.now home (C.seen callback.old) (C.seen callback.new)) }
    ensures refused { OnErr result (IsSameBox (C.seen callback.old) (C.seen callback.new)) }
{
    let Some(post) = home else {
        return Ok(());
    };
    match topology.stages.find(post.stage) {
        Some(spec) => callback.arm_with(spec),
        None => Ok(()),
    }
}

fn arm_at<C: Boxed>(
    topology: &Topology,
    home: Option<Post>,
    stock: &mut Vec<C>,
    at: usize,
) -> Result<(), AllocError>
    requires sound { IsSound topology.now }
    requires within { at < length stock.old.items }
    ensures len { length stock.new.items ≡ length stock.old.items }
    ensures armed { OnOk result (Both (IsArmedFor topology.now home) (box_at C.seen stock.old.items at) (box_at C.seen stock.new.items at)) }
    ensures refused { OnErr result (Both IsSameBox (box_at C.seen stock.old.items at) (box_at C.seen stock.new.items at)) }
    ensures others { (k : ℕ) → k ≢ at → box_at C.seen stock.new.items k ≡ box_at C.seen stock.old.items k }
{
    arm_one(topology, home, &mut stock[at])
}

/// Arms each box that is for a post with the spec of its stage. After want of memory some are armed.
pub(crate) fn arm_all<C: Boxed>(
    topology: &Topology,
    homes: &[Option<Post>],
    stock: &mut Vec<C>,
) -> Result<(), AllocError>
    requires sound { IsSound topology.now }
    requires len { length homes.now ≡ length stock.old.items }
    ensures len { length stock.new.items ≡ length stock.old.items }
    ensures armed { OnOk result ((k : ℕ) → Both (IsArmedFor topology.now (joined (slice_get homes.now k))) (box_at C.seen stock.old.items k) (box_at C.seen stock.new.items k)) }
    ensures same { OnErr result ((k : ℕ) → Both IsSameBox (box_at C.seen stock.old.items k) (box_at C.seen stock.new.items k)) }
{
    for at in 0..homes.len() {
        let home = home_in(homes, at);
        arm_at(topology, home, stock, at)?;
    }
    Ok(())
}
