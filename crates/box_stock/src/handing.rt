//! Handing out.

ghost use Rattle.std.specs.Prelude.{◌≡◌, ◌≢◌, ◌<◌, ◌≤◌, ◌*◌, ℕ, Some, if◌then◌else◌, length, slice_get, IfSome, IfOk, IfErr, vec_capacity};
ghost use Rattle.pipe_types.specs.{Sound.{IsSound}, declared.numbers.Post.{Post}};
ghost use Rattle.stage_bodies.specs.{Seen.{body_at}, Jobs.{Both}, Posts.{place_at}};
ghost use Rattle.box_stock.specs.Homes.{joined, post_for, Suffices};
ghost use Rattle.box_stock.specs.Lends.{AreApart, AreHandedOut, AreStillThere, IsHandedOut, IsLent, IsSameBox, IsSlipOf, box_at, body_with, is_home, kinds_of, slip_at};

use crate::arming::arm_all;
use crate::boxed::{Boxed, Carries};
use crate::homes::{home_in, homes_of};
use crate::tables::{new_table, seat_producers};
use pipe_types::numbers::Post;
use pipe_types::topology::Topology;
use stage_bodies::{place_of, put_back};
use std::alloc::{AllocError, Global};

/// Where a box is.
#[derive(Drop)]
pub enum Slip<C> {
    /// In the body at this place.
    Lent(usize),
    Kept(C),
}

/// What is to come back. The slips lie on one another: that of the first box is the last.
#[derive(Drop)]
pub struct Lent<C> {
    pub slips: Vec<Slip<C>>,
    /// Empty, with room for all boxes.
    pub room: Vec<C>,
}

/// Puts a box into a body for its post, if it is for one.
fn lend<C: Boxed, B: Carries<C>>(
    bodies: &mut Vec<Option<B>>,
    home: Option<Post>,
    callback: C,
) -> Slip<C>
    requires within { IfSome home (λ p. place_at p < length bodies.old.items) }
    ensures len { length bodies.new.items ≡ length bodies.old.items }
    ensures slip { IsSlipOf C.seen home (C.seen callback) result }
    ensures table { (s : ℕ) → body_at B.look bodies.new.items s ≡ (if is_home home s then Some (body_with (C.seen callback)) else body_at B.look bodies.old.items s) }
{
    let Some(post) = home else {
        return Slip::Kept(callback);
    };
    let at = place_of(post);
    put_back(bodies, at, B::with_box(callback));
    Slip::Lent(at)
}

/// Puts each box into a body for its post, or keeps it.
fn lend_all<C: Boxed, B: Carries<C>>(
    bodies: &mut Vec<Option<B>>,
    homes: &[Option<Post>],
    stock: &mut Vec<C>,
    slips: &mut Vec<Slip<C>>,
)
    requires len { length homes.now ≡ length stock.old.items }
    requires room { length stock.old.items ≤ vec_capacity slips.old }
    requires none { length slips.old.items ≡ 0 }
    requires within { (k : ℕ) → IfSome (joined (slice_get homes.now k)) (λ p. place_at p < length bodies.old.items) }
    requires apart { AreApart (λ k. joined (slice_get homes.now k)) }
    ensures table_len { length bodies.new.items ≡ length bodies.old.items }
    ensures slips_len { length slips.new.items ≡ length stock.old.items }
    ensures room_len { length stock.new.items ≡ 0 }
    ensures capacity { vec_capacity stock.new ≡ vec_capacity stock.old }
    ensures lent { (k : ℕ) → k < length stock.old.items
        → Both (IsLent C.seen (joined (slice_get homes.now k)) (body_at B.look bodies.new.items)) (box_at C.seen stock.old.items k) (slip_at slips.new.items k) }
    ensures others { (at : ℕ) → ((k : ℕ) (p : Post) → joined (slice_get homes.now k) ≡ Some p → place_at p ≢ at)
        → body_at B.look bodies.new.items at ≡ body_at B.look bodies.old.items at }
{
    for done in 0..homes.len() {
        let Some(callback) = stock.pop() else {
            unreachable!();
        };
        let home = home_in(homes, stock.len());
        let slip = lend(bodies, home, callback);
        slips.push_reserved(slip);
    }
}

/// A table in which every post of the topology has its body, and slips for the boxes: that of a producer is bare, and a post
/// that has a callback holds its box, armed with the spec of its stage. The error is want of memory: the boxes then come back
/// in their order, and some may be armed.
pub fn hand_out<C: Boxed, B: Carries<C>>(
    alloc: Global,
    topology: &Topology,
    mut stock: Vec<C>,
) -> Result<(Vec<Option<B>>, Lent<C>), (Vec<C>, AllocError)>
    requires sound { IsSound topology.now }
    requires suffices { Suffices topology.now (kinds_of C.seen stock.items) }
    ensures len { IfOk result (λ r. length r.0.items ≡ 65 * 16) }
    ensures bodies { IfOk result (λ r. AreHandedOut topology.now (body_at B.look r.0.items)) }
    ensures slips { IfOk result (λ r. length r.1.slips.items ≡ length stock.items) }
    ensures room { IfOk result (λ r. (length r.1.room.items ≡ 0) × (length stock.items ≤ vec_capacity r.1.room)) }
    ensures boxes { IfOk result (λ r. (k : ℕ) → k < length stock.items
        → IsHandedOut C.seen topology.now (post_for topology.now (kinds_of C.seen stock.items) k) (body_at B.look r.0.items) (box_at C.seen stock.items k) (slip_at r.1.slips.items k)) }
    ensures there { IfOk result (λ r. AreStillThere r.1.slips.items (body_at B.look r.0.items)) }
    ensures back { IfErr result (λ e. (length e.0.items ≡ length stock.items) × ((k : ℕ) → Both IsSameBox (box_at C.seen stock.items k) (box_at C.seen e.0.items k))) }
{
    let homes = match homes_of(alloc, topology, &stock) {
        Ok(homes) => homes,
        Err(error) => return Err((stock, error)),
    };
    let mut slips = match Vec::with_capacity(alloc, stock.len()) {
        Ok(slips) => slips,
        Err(error) => return Err((stock, error)),
    };
    let mut bodies = match new_table(alloc) {
        Ok(bodies) => bodies,
        Err(error) => return Err((stock, error)),
    };
    match arm_all(topology, &homes, &mut stock) {
        Ok(()) => {}
        Err(error) => return Err((stock, error)),
    }
    seat_producers(topology, &mut bodies);
    lend_all(&mut bodies, &homes, &mut stock, &mut slips);
    Ok((bodies, Lent { slips, room: stock }))
}
