//! How many records the fetches that are out may still bring.

ghost use Rattle.std.specs.Prelude.{◌≡◌, ◌<◌, ◌≤◌, ◌^◌, length, sum_by, slice_get};
ghost use Rattle.pipe_model.specs.Legal.{fetches_out};
ghost use Rattle.core_tables.specs.Rows.{post_at};
ghost use Rattle.core_state.specs.Stands.{Stands};
ghost use Rattle.core_accepts.specs.Rooms.{may_bring, brings};

use core_state::Core;
use core_tables::posts::SLOTS;
use core_tables::rows::{PostRow, StageRow};
use pipe_types::topology::{Role, StageSpec};

/// How many records all fetches that are out may still bring.
pub(crate) fn fetches_out(core: &Core) -> u64
    requires stands { Stands core.now }
    ensures { result ≡ fetches_out core.now.topology core.now.journal.steps }
{
    sum_out(core.topology.stages.as_slice(), &core.stages, &core.posts)
}

/// The bounds of the producers' fetches that are out, added up.
fn sum_out(stages: &[StageSpec], rows: &[StageRow], posts: &[PostRow]) -> u64
    requires few { length stages.now ≤ 64 }
    ensures { result ≡ sum_by (brings rows.now posts.now) stages.now }
{
    let mut out = 0;
    for spec in stages {
        out += u64::from(fetch_of(spec, rows, posts));
    }
    out
}

/// How many records the producer's fetch may still bring, and 0 where it has none out.
fn fetch_of(spec: &StageSpec, rows: &[StageRow], posts: &[PostRow]) -> u32
    ensures { result ≡ brings rows.now posts.now spec.now }
{
    match spec.role {
        Role::Producer => still_out(rows, posts, spec.no.0 as usize),
        _ => 0,
    }
}

/// The bound of the fetch in the row, where its post is out.
fn still_out(rows: &[StageRow], posts: &[PostRow], at: usize) -> u32
    requires { at < 2 ^ 16 }
    ensures { result ≡ may_bring (slice_get rows.now at) (slice_get posts.now (post_at at 0)) }
{
    match (rows.get(at), posts.get(at * SLOTS)) {
        (Some(row), Some(post)) if post.out => row.last_fetch,
        _ => 0,
    }
}
