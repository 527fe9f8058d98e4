//! Which post the boxes of a stock are for.

ghost use Rattle.std.specs.Prelude.{◌≡◌, ◌<◌, ℕ, Some, if◌then◌else◌, length, slice_get, IfOk};
ghost use Rattle.pipe_types.specs.Sound.{IsSound};
ghost use Rattle.stage_job.specs.Boxes.{same_kind, boxes_of_kind};
ghost use Rattle.topology_needs.specs.Needs.{boxes_in as boxes_by_kind, posts_of};
ghost use Rattle.box_stock.specs.{Homes.{joined, posts_with, post_for}, Lends.{kinds_of}};

use crate::boxed::Boxed;
use pipe_types::numbers::Post;
use pipe_types::topology::{Kind, StageSpec, Topology};
use std::alloc::{AllocError, Global};
use topology_needs::{Boxes, posts};

/// The post of a box of this kind that has so many of its kind before it, or none where no post is left for it.
pub fn home_of(topology: &Topology, kind: Kind, before: usize) -> Option<Post>
    requires { IsSound topology.now }
    ensures { result ≡ slice_get (posts_with kind topology.now) before }
{
    let mut left = before;
    for spec in topology.stages.as_slice() {
        let posts = posts_here(kind, spec);
        if left < posts {
            return Some(Post {
                stage: spec.no,
                slot: left as u16,
            });
        }
        left -= posts;
    }
    None
}

fn posts_here(kind: Kind, spec: &StageSpec) -> usize
    ensures { result ≡ (if same_kind kind spec.now.kind then posts_of spec.now else 0) }
{
    if is_same(kind, spec.kind) {
        posts(spec)
    } else {
        0
    }
}

fn is_same(wanted: Kind, found: Kind) -> bool
    ensures { result ≡ same_kind wanted found }
{
    wanted == found
}

/// How many of the boxes are of this kind.
fn boxes_of<C: Boxed>(stock: &[C], wanted: Kind) -> usize
    ensures { result ≡ boxes_of_kind wanted (kinds_of C.seen stock.now) }
{
    let mut boxes = 0;
    for callback in stock {
        if is_same(wanted, callback.kind_of()) {
            boxes += 1;
        }
    }
    boxes
}

/// How many boxes of each kind the stock has.
pub fn boxes_in<C: Boxed>(stock: &[C]) -> Boxes
    ensures { result ≡ boxes_by_kind (kinds_of C.seen stock.now) }
{
    Boxes {
        steps: boxes_of(stock, Kind::Steps),
        lines: boxes_of(stock, Kind::Lines),
        own: boxes_of(stock, Kind::Own),
    }
}

/// The post of the box at this place.
fn home_at<C: Boxed>(topology: &Topology, stock: &[C], at: usize) -> Option<Post>
    requires sound { IsSound topology.now }
    requires within { at < length stock.now }
    ensures { result ≡ post_for topology.now (kinds_of C.seen stock.now) at }
{
    let kind = stock[at].kind_of();
    let before = boxes_of(&stock[..at], kind);
    home_of(topology, kind, before)
}

/// The posts that the boxes of a stock are for.
pub(crate) fn homes_of<C: Boxed>(
    alloc: Global,
    topology: &Topology,
    stock: &[C],
) -> Result<Vec<Option<Post>>, AllocError>
    requires sound { IsSound topology.now }
    ensures len { IfOk result (λ homes. length homes.items ≡ length stock.now) }
    ensures homes { IfOk result (λ homes. (k : ℕ) → k < length stock.now → slice_get homes.items k ≡ Some (post_for topology.now (kinds_of C.seen stock.now) k)) }
{
    let mut homes = Vec::with_capacity(alloc, stock.len())?;
    for at in 0..stock.len() {
        homes.push_reserved(home_at(topology, stock, at));
    }
    Ok(homes)
}

/// The home of the box at this place.
pub(crate) fn home_in(homes: &[Option<Post>], at: usize) -> Option<Post>
    ensures { result ≡ joined (slice_get homes.now at) }
{
    match homes.get(at) {
        Some(home) => *home,
        None => None,
    }
}
