//! Bodies by post.

ghost use Rattle.std.specs.Prelude.{◌≡◌, ◌<◌, ◌+◌, ◌*◌, ◌==◌, ℕ, None, Some, if◌then◌else◌, length, option_map, IfSome};
ghost use Rattle.stage_bodies.specs.Seen.{body_at};

use crate::works::Works;
use pipe_types::numbers::Post;

/// How many places a table of bodies has: 16 for the control source and each of 64 stages.
pub const PLACES: usize = 65 * 16;

/// The place of a post.
pub fn place_of(post: Post) -> usize
    ensures { result ≡ post.stage.0 * 16 + post.slot }
{
    post.stage.0 as usize * 16 + post.slot as usize
}

/// Takes the body at a place out, if one is there.
pub fn take_out<B: Works>(bodies: &mut Vec<Option<B>>, at: usize) -> Option<B>
    ensures len { length bodies.new.items ≡ length bodies.old.items }
    ensures within { IfSome result (λ body. at < length bodies.old.items) }
    ensures out { option_map B.look result ≡ body_at B.look bodies.old.items at }
    ensures others { (s : ℕ) → body_at B.look bodies.new.items s ≡ (if at == s then None else body_at B.look bodies.old.items s) }
{
    match bodies.get_mut(at) {
        Some(place) => place.take(),
        None => None,
    }
}

/// Puts a body at a place.
pub fn put_back<B: Works>(bodies: &mut Vec<Option<B>>, at: usize, body: B)
    requires within { at < length bodies.old.items }
    ensures len { length bodies.new.items ≡ length bodies.old.items }
    ensures others { (s : ℕ) → body_at B.look bodies.new.items s ≡ (if at == s then Some (B.look body) else body_at B.look bodies.old.items s) }
{
    bodies[at] = Some(body);
}
