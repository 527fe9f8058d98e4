//! Tables of bodies, before anything is in them.

ghost use Rattle.std.specs.Prelude.{◌≡◌, ◌≢◌, ◌<◌, ◌*◌, ◌==◌, if◌then◌else◌, ℕ, Some, None, length, IfOk};
ghost use Rattle.pipe_types.specs.{Sound.{IsSound, is_producer}, Numbers.{post}, Stages.{spec_of}, declared.numbers.StageNo.{StageNo}, declared.topology.StageSpec.{StageSpec}};
ghost use Rattle.pipe_types.specs.declared.topology.Role.TheVariants.{Producer};
ghost use Rattle.stage_bodies.specs.{Seen.{body_at}, Posts.{place_at}};
ghost use Rattle.box_stock.specs.Lends.{bare_body};

use crate::boxed::{Boxed, Carries};
use pipe_types::numbers::Post;
use pipe_types::topology::{Role, StageSpec, Topology};
use stage_bodies::{PLACES, Works, place_of, put_back};
use std::alloc::{AllocError, Global};

/// A table without bodies.
pub(crate) fn new_table<B: Works>(alloc: Global) -> Result<Vec<Option<B>>, AllocError>
    ensures len { IfOk result (λ table. length table.items ≡ 65 * 16) }
    ensures none { IfOk result (λ table. (s : ℕ) → body_at B.look table.items s ≡ None) }
{
    let mut table = Vec::with_capacity(alloc, PLACES)?;
    for place in 0..PLACES {
        table.push_reserved(None);
    }
    Ok(table)
}

/// Puts a bare body at the post of a producer.
fn seat<C: Boxed, B: Carries<C>>(spec: &StageSpec, bodies: &mut Vec<Option<B>>)
    requires within { spec.now.no.0 * 16 < length bodies.old.items }
    ensures len { length bodies.new.items ≡ length bodies.old.items }
    ensures table { (s : ℕ) → body_at B.look bodies.new.items s
        ≡ (if is_producer spec.now.role then (if place_at (post spec.now.no 0) == s then Some bare_body else body_at B.look bodies.old.items s) else body_at B.look bodies.old.items s) }
{
    match spec.role {
        Role::Producer => {
            let at = place_of(Post {
                stage: spec.no,
                slot: 0,
            });
            put_back(bodies, at, B::bare());
        }
        _ => {}
    }
}

/// Puts a bare body at the post of each producer.
pub(crate) fn seat_producers<C: Boxed, B: Carries<C>>(
    topology: &Topology,
    bodies: &mut Vec<Option<B>>,
)
    requires sound { IsSound topology.now }
    requires len { length bodies.old.items ≡ 65 * 16 }
    ensures len { length bodies.new.items ≡ length bodies.old.items }
    ensures seated { (s : StageNo) (spec : StageSpec) → spec_of topology.now s ≡ Some spec → spec.role ≡ Producer
        → body_at B.look bodies.new.items (place_at (post s 0)) ≡ Some bare_body }
    ensures others { (at : ℕ) → ((s : StageNo) (spec : StageSpec) → spec_of topology.now s ≡ Some spec → spec.role ≡ Producer → place_at (post s 0) ≢ at)
        → body_at B.look bodies.new.items at ≡ body_at B.look bodies.old.items at }
{
    for spec in topology.stages.as_slice() {
        seat::<C, B>(spec, bodies);
    }
}
