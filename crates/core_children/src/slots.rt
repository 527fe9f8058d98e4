//! The slots of a supervisor.

ghost use Rattle.std.specs.Prelude.{◌≡◌, ◌<◌, ℕ, length, if◌then◌else◌, ◌==◌, ◌&&◌, slice_get, option_map, Some, None, IfSome, IsSome};
ghost use Rattle.pipe_types.specs.{declared.numbers.StageNo.{StageNo as Stage}, Children.{runs_again}};
ghost use Rattle.consumer_sup.specs.Children.{alive, Slots, child_in};
ghost use Rattle.core_state.specs.{Stands.{child_at}, Readings.{out_in}};
ghost use Rattle.core_children.specs.{Slots.{slots_at, left_in, is_again}, Starts.{again_in}};

use consumer_sup::{ChildEnd, Children};
use core_tables::posts::SLOTS;
use core_tables::rows::PostRow;
use pipe_types::numbers::{MsgNo, StageNo};

/// A free slot of the stage.
pub fn free_in(children: &[Children], stage: StageNo) -> u16
    requires within { stage.0 < length children.now }
    requires some { alive (slots_at children.now stage) < length (slots_at children.now stage) }
    ensures slot { result < length (slots_at children.now stage) }
    ensures free { child_at children.now stage result ≡ None }
{
    match children[stage.0 as usize].free() {
        Some(slot) => slot,
        None => unreachable!(),
    }
}

/// Starts a child for the message in that slot of the stage, which is free.
pub fn start_in(children: &mut Vec<Children>, stage: StageNo, slot: u16, no: MsgNo)
    requires within { stage.0 < length children.old.items }
    requires slot { slot < length (slots_at children.old.items stage) }
    requires free { child_at children.old.items stage slot ≡ None }
    ensures started { (s : Stage) (k : ℕ) → child_at children.new.items s k ≡ (if s.0 == stage.0 && slot == k then Some (record { no = no; crashes = 0 }) else child_at children.old.items s k) }
    ensures kept { (s : Stage) (new : Slots) → slice_get children.new.items s.0 ≡ Some new → (old : Slots) × (slice_get children.old.items s.0 ≡ Some old) × (new.mode ≡ old.mode) × (length new.slots ≡ length old.slots) }
    ensures len { length children.new.items ≡ length children.old.items }
{
    children[stage.0 as usize].start_at(slot, no);
}

/// The first slot of the stage whose child runs its message again: it has a child, and its job is home.
pub fn slot_again(children: &[Children], posts: &[PostRow], stage: StageNo) -> Option<(u16, MsgNo)>
    requires { stage.0 < length children.now }
    ensures some { IfSome result (λ found. (found.0 < 16) × (again_in children.now posts.now stage found.0 ≡ Some found.1)) }
    ensures none { result ≡ None → (k : ℕ) → k < 16 → again_in children.now posts.now stage k ≡ None }
{
    for slot in 0..16 {
        if let Some(no) = message_again(children, posts, stage, slot) {
            return Some((slot, no));
        }
    }
    None
}

/// The message of the slot's child, where its job is home.
fn message_again(
    children: &[Children],
    posts: &[PostRow],
    stage: StageNo,
    slot: u16,
) -> Option<MsgNo>
    requires { stage.0 < length children.now }
    ensures { result ≡ again_in children.now posts.now stage slot }
{
    if is_out(posts, stage.0 as usize * SLOTS + slot as usize) {
        return None;
    }
    children[stage.0 as usize].holds(slot)
}

/// Whether the row says that its job is out.
fn is_out(posts: &[PostRow], at: usize) -> bool
    ensures { result ≡ out_in (slice_get posts.now at) }
{
    match posts.get(at) {
        Some(row) => row.out,
        None => false,
    }
}

/// Ends a run of the child in the stage's slot, which has one, and answers whether it runs again. The slot is free
/// afterwards unless it does.
pub fn end_in(children: &mut Vec<Children>, stage: StageNo, slot: u16, crashed: bool) -> bool
    requires within { stage.0 < length children.old.items }
    requires there { IsSome (child_at children.old.items stage slot) }
    ensures again { IfSome (slice_get children.old.items stage.0) (λ held. IfSome (child_in held.slots slot) (λ child. result ≡ (crashed && runs_again held.mode child.crashes))) }
    ensures ended { IfSome (child_at children.old.items stage slot) (λ child. (s : Stage) (k : ℕ) → child_at children.new.items s k ≡ (if s.0 == stage.0 && slot == k then left_in result child else child_at children.old.items s k)) }
    ensures kept { (s : Stage) (new : Slots) → slice_get children.new.items s.0 ≡ Some new → (old : Slots) × (slice_get children.old.items s.0 ≡ Some old) × (new.mode ≡ old.mode) × (length new.slots ≡ length old.slots) }
    ensures len { length children.new.items ≡ length children.old.items }
{
    let held = &mut children[stage.0 as usize];
    is_again(held.ended(slot, crashed))
}

/// Whether the child runs again.
fn is_again(end: ChildEnd) -> bool
    ensures { result ≡ is_again end }
{
    matches!(end, ChildEnd::Again)
}

/// The number of the message of the child in the stage's slot, which has one.
pub fn number_in(children: &[Children], stage: StageNo, slot: u16) -> u32
    requires within { stage.0 < length children.now }
    requires there { IsSome (child_at children.now stage slot) }
    ensures { option_map (λ child. child.no.0) (child_at children.now stage slot) ≡ Some result }
{
    let held = &children[stage.0 as usize];
    match held.holds(slot) {
        Some(no) => no.0,
        None => unreachable!(),
    }
}
