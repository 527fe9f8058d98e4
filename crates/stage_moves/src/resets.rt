//! The bodies of a stage that is restarted.

ghost use Rattle.std.specs.Prelude.{◌≡◌, ◌*◌, length};
ghost use Rattle.stage_bodies.specs.Seen.{body_at};
ghost use Rattle.stage_moves.specs.Resets.{AreResetFrom};

use pipe_types::numbers::{Post, StageNo};
use stage_bodies::{Works, place_of, put_back, take_out};

/// How many slots a stage has in a table of bodies.
const SLOTS: u16 = 16;

/// Resets the bodies of the stage, in each slot that has one. It takes no memory.
pub(crate) fn reset_bodies<B: Works>(bodies: &mut Vec<Option<B>>, stage: StageNo)
    ensures len { length bodies.new.items ≡ length bodies.old.items }
    ensures reset { AreResetFrom (stage.0 * 16) 16 (body_at B.look bodies.old.items) (body_at B.look bodies.new.items) }
{
    for slot in 0..SLOTS {
        reset_at(bodies, place_of(Post { stage, slot }));
    }
}

/// Resets the body at a place, if one is there.
fn reset_at<B: Works>(bodies: &mut Vec<Option<B>>, at: usize)
    ensures len { length bodies.new.items ≡ length bodies.old.items }
    ensures reset { AreResetFrom at 1 (body_at B.look bodies.old.items) (body_at B.look bodies.new.items) }
{
    let Some(body) = take_out(bodies, at) else {
        return;
    };
    let mut body = body;
    body.reset();
    put_back(bodies, at, body);
}
