//! The restart limit of a pipeline.
//!
//! Begins with `MAX:WINDOW`, the window in milliseconds. The acts are `may=TIME` and `made=TIME`.

ghost use Rattle.std.specs.Prelude.{◌≡◌, ◌≤◌, All};

use crate::words::{Case, cut, item, long, number, refuse};
use restart_core::Restarts;
use std::alloc::AllocError;
use told_text::Told;

/// A limit, how many restarts it allows, and the time of the last one.
#[derive(Drop)]
struct Limit {
    restarts: Restarts,
    max: u32,
    last: u64,
    ghost most: { restarts.max ≡ max },
    ghost latest: { All (λ t. t ≤ last) restarts.times },
}

pub fn run(told: &mut Told, case: &Case<'_>) -> Result<(), AllocError> {
    let max = number(item(case.begun, 0));
    let mut limit = Limit {
        restarts: Restarts::new(told.alloc, max, long(item(case.begun, 1)))?,
        max,
        last: 0,
    };
    for act in case.acts.split_whitespace() {
        let (verb, time) = cut(act, '=');
        if verb == "may" {
            told.flag(limit.restarts.may(long(time)));
        } else if !make(&mut limit, long(time)) {
            refuse(told);
        }
    }
    Ok(())
}

/// Notes a restart, and answers whether that is allowed.
fn make(limit: &mut Limit, now: u64) -> bool {
    if limit.max == 0 || now < limit.last {
        return false;
    }
    limit.restarts.made(now);
    limit.last = now;
    true
}
