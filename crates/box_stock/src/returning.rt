//! Taking back.

ghost use Rattle.std.specs.Prelude.{◌≡◌, ◌≢◌, ◌<◌, ◌≤◌, ℕ, Some, IsSome, length, option_map, vec_capacity};
ghost use Rattle.stage_bodies.specs.Seen.{body_at};
ghost use Rattle.box_stock.specs.Lends.{AreStillThere, back_for, box_at, callback_in, slip_at, without_box};

use crate::boxed::{Boxed, Carries};
use crate::handing::{Lent, Slip};
use stage_bodies::{put_back, take_out};

/// Takes the box out of the body at this place, if it holds one.
fn box_out<C: Boxed, B: Carries<C>>(bodies: &mut Vec<Option<B>>, at: usize) -> Option<C>
    ensures len { length bodies.new.items ≡ length bodies.old.items }
    ensures out { option_map C.seen result ≡ callback_in (body_at B.look bodies.old.items at) }
    ensures emptied { body_at B.look bodies.new.items at ≡ option_map without_box (body_at B.look bodies.old.items at) }
    ensures others { (s : ℕ) → at ≢ s → body_at B.look bodies.new.items s ≡ body_at B.look bodies.old.items s }
{
    let body = take_out(bodies, at)?;
    let mut body = body;
    let callback = body.take_box();
    put_back(bodies, at, body);
    callback
}

/// The box of a slip.
#[tactic(auto, using(crate::proofs::Lending::rest_left))]
fn come_back<C: Boxed, B: Carries<C>>(bodies: &mut Vec<Option<B>>, slip: Slip<C>) -> C
    requires there { (at : ℕ) → slip ≡ Slip.Lent at → IsSome (callback_in (body_at B.look bodies.old.items at)) }
    ensures len { length bodies.new.items ≡ length bodies.old.items }
    ensures out { Some (C.seen result) ≡ back_for C.seen (body_at B.look bodies.old.items) (Some slip) }
    ensures others { (s : ℕ) → slip ≢ Slip.Lent s → body_at B.look bodies.new.items s ≡ body_at B.look bodies.old.items s }
    ensures rest { (s : ℕ) → option_map without_box (body_at B.look bodies.new.items s) ≡ option_map without_box (body_at B.look bodies.old.items s) }
{
    match slip {
        Slip::Kept(callback) => callback,
        Slip::Lent(at) => match box_out(bodies, at) {
            Some(callback) => callback,
            None => unreachable!(),
        },
    }
}

/// The boxes in the order in which they were handed in: each that was for a post as the table holds it now, every other as it
/// was. Beside its boxes the table is as it was.
pub fn take_back<C: Boxed, B: Carries<C>>(bodies: &mut Vec<Option<B>>, lent: Lent<C>) -> Vec<C>
    requires room { (length lent.room.items ≡ 0) × (length lent.slips.items ≤ vec_capacity lent.room) }
    requires there { AreStillThere lent.slips.items (body_at B.look bodies.old.items) }
    ensures len { length result.items ≡ length lent.slips.items }
    ensures boxes { (k : ℕ) → k < length lent.slips.items → box_at C.seen result.items k ≡ back_for C.seen (body_at B.look bodies.old.items) (slip_at lent.slips.items k) }
    ensures rest { (s : ℕ) → option_map without_box (body_at B.look bodies.new.items s) ≡ option_map without_box (body_at B.look bodies.old.items s) }
{
    let Lent { slips, room } = lent;
    let mut slips = slips;
    let mut boxes = room;
    for done in 0..slips.len() {
        let Some(slip) = slips.pop() else {
            unreachable!();
        };
        let callback = come_back(bodies, slip);
        boxes.push_reserved(callback);
    }
    boxes
}
