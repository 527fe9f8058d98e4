//! The rows.

ghost use Rattle.std.specs.Prelude.{◌≡◌, IfOk};
ghost use Rattle.plain_works.specs.Works.{led_by as led_by_in};

use pipe_types::numbers::{StageNo, SubNo};
use std::alloc::AllocError;

/// What one take took: the stage, and the units in order.
#[derive(Drop)]
pub struct TakeRow {
    pub stage: StageNo,
    pub units: Vec<u32>,
}

/// How many messages a stage's handler had seen after one step.
#[derive(Clone, Copy)]
pub struct CountRow {
    pub stage: StageNo,
    pub count: u64,
}

/// How many units one step handled, on each of these subscriptions.
#[derive(Drop)]
pub struct HandledRow {
    pub subs: Vec<SubNo>,
    pub units: u64,
}

/// What the steps so far took, counted and handled, a row for each such step, the newest first.
#[derive(Drop)]
pub struct Works {
    pub takes: Vec<TakeRow>,
    pub counts: Vec<CountRow>,
    pub handled: Vec<HandledRow>,
}

/// The rows, and in front of them one more, where there is one.
pub(crate) fn led_by<T: Drop>(row: Option<T>, rows: Vec<T>) -> Result<Vec<T>, AllocError>
    ensures { IfOk result (λ more. more.items ≡ led_by_in row rows.items) }
{
    let mut more = rows;
    if let Some(row) = row {
        more.insert(0, row)?;
    }
    Ok(more)
}
