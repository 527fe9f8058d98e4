//! What handlers were shown and answered.

ghost use Rattle.std.specs.Prelude.{◌≡◌, ℕ, ◌+◌, ◌*◌, ◌<◌, ◌^◌, ◌==◌, [], Some, None, replicate, length, slice_get, slice_index, if◌then◌else◌, IfOk};
ghost use Rattle.pipe_types.specs.declared.numbers.StageNo.{StageNo as Stage};
ghost use Rattle.core_tables.specs.{Rows.{post_at}, Tables.{list_at}};
ghost use Rattle.plain_run.specs.Works.{held_in};

use core_tables::posts::SLOTS;
use pipe_types::numbers::StageNo;
use std::alloc::{AllocError, Global};

/// What handlers were shown and answered. A table by stage has a row for each stage number, and first one for the control
/// source.
#[derive(Drop)]
pub struct Works {
    /// The units of the stage's last take; by stage.
    pub taken: Vec<Vec<u32>>,
    /// How many messages the stage's handler has seen; by stage.
    pub counts: Vec<u64>,
    /// The message last started in the slot; by stage and slot, 16 for each stage.
    pub started: Vec<Option<u32>>,
}

/// The works of so many stages before the first step, the control source among them.
pub(crate) fn new_works(alloc: Global, count: usize) -> Result<Works, AllocError>
    requires few { count < 2 ^ 16 }
    ensures taken_len { IfOk result (λ works. length works.taken.items ≡ count) }
    ensures taken { IfOk result (λ works. (s : Stage) → list_at works.taken.items s ≡ []) }
    ensures counts { IfOk result (λ works. works.counts.items ≡ replicate count 0) }
    ensures started { IfOk result (λ works. works.started.items ≡ replicate (count * 16) None) }
{
    Ok(Works {
        taken: empty_lists(alloc, count)?,
        counts: vec![in alloc; 0; count]?,
        started: vec![in alloc; None; count * SLOTS]?,
    })
}

/// So many empty lists.
fn empty_lists(alloc: Global, count: usize) -> Result<Vec<Vec<u32>>, AllocError>
    ensures len { IfOk result (λ lists. length lists.items ≡ count) }
    ensures empty { IfOk result (λ lists. (s : Stage) → list_at lists.items s ≡ []) }
{
    let mut lists = Vec::with_capacity(alloc, count)?;
    for k in 0..count {
        lists.push_reserved(Vec::new(alloc));
    }
    Ok(lists)
}

/// What the stage took last, and nothing past the end.
pub(crate) fn taken_in(rows: &[Vec<u32>], stage: StageNo) -> &[u32]
    ensures { result.now ≡ list_at rows.now stage }
{
    match rows.get(stage.0 as usize) {
        Some(row) => row.as_slice(),
        None => &[],
    }
}

/// The count of the stage, and 0 past the end.
pub(crate) fn count_in(counts: &[u64], stage: StageNo) -> u64
    ensures { result ≡ slice_index counts.now stage.0 }
{
    match counts.get(stage.0 as usize) {
        Some(count) => *count,
        None => 0,
    }
}

/// The message last started in the stage's slot.
pub(crate) fn started_in(rows: &[Option<u32>], stage: StageNo, slot: u16) -> Option<u32>
    ensures { result ≡ held_in (slice_get rows.now (post_at stage.0 slot)) }
{
    match rows.get(stage.0 as usize * SLOTS + slot as usize) {
        Some(held) => *held,
        None => None,
    }
}

/// Notes what the stage took.
pub(crate) fn note_taken(taken: &mut Vec<Vec<u32>>, stage: StageNo, units: Vec<u32>)
    requires { stage.0 < length taken.old.items }
    ensures taken { (s : Stage) → list_at taken.new.items s ≡ (if s.0 == stage.0 then units.items else list_at taken.old.items s) }
    ensures len { length taken.new.items ≡ length taken.old.items }
{
    taken[stage.0 as usize] = units;
}

/// Notes how many messages the stage's handler has seen.
pub(crate) fn note_count(counts: &mut Vec<u64>, stage: StageNo, count: u64)
    requires { stage.0 < length counts.old.items }
    ensures counts { (s : Stage) → slice_index counts.new.items s.0 ≡ (if s.0 == stage.0 then count else slice_index counts.old.items s.0) }
    ensures len { length counts.new.items ≡ length counts.old.items }
{
    counts[stage.0 as usize] = count;
}

/// Notes that the message was started in the stage's slot.
pub(crate) fn note_started(started: &mut Vec<Option<u32>>, stage: StageNo, slot: u16, no: u32)
    requires { post_at stage.0 slot < length started.old.items }
    ensures started { (i : ℕ) → slice_get started.new.items i ≡ (if post_at stage.0 slot == i then Some (Some no) else slice_get started.old.items i) }
    ensures len { length started.new.items ≡ length started.old.items }
{
    started[stage.0 as usize * SLOTS + slot as usize] = Some(no);
}
