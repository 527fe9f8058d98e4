//! What the steps hold besides their numbers: the records and the replies packed, and beside them each step that cannot be packed, as
//! it came. Nothing is ever taken out, so a place keeps what stands there.

ghost use Rattle.std.specs.Prelude.{◌≡◌, ◌≤◌, ◌<◌, ◌+◌, length, IsOk, OnOk};
ghost use Rattle.slab.specs.Slab.{ContainsKey};
ghost use Rattle.pipe_journal.specs.{Entries.{KeepsValues, Keeps, room_in, spare_of, reply_in, step_in}, Items.{reply_seen}};

use crate::items::ReplyView;
use crate::kept::Kept;
use pipe_types::step::Step;
use slab::Slab;
use std::alloc::AllocError;

/// What the steps hold besides their numbers.
#[derive(Drop)]
pub(crate) struct Store {
    pub(crate) kept: Kept,
    pub(crate) whole: Slab<Step>,
}

/// Makes room for that many further steps.
fn reserve_in(slab: &mut Slab<Step>, steps: usize) -> Result<(), AllocError>
    ensures keeps { KeepsValues slab.old slab.new }
    ensures spare { room_in slab.old ≤ room_in slab.new }
    ensures room { OnOk result (steps ≤ room_in slab.new) }
    ensures had_room { steps ≤ room_in slab.old → IsOk result }
{
    if steps <= slab.capacity() - slab.len() {
        return Ok(());
    }
    slab.reserve(steps)
}

impl Store {
    /// Makes room for that many further steps that cannot be packed, which then take no memory.
    pub(crate) fn reserve(&mut self, steps: usize) -> Result<(), AllocError>
        ensures keeps { Keeps self.old self.new }
        ensures spare { spare_of self.old ≤ spare_of self.new }
        ensures room { OnOk result (steps ≤ spare_of self.new) }
        ensures had_room { steps ≤ spare_of self.old → IsOk result }
    {
        reserve_in(&mut self.whole, steps)
    }

    /// Moves the step in, and answers its key.
    pub(crate) fn keep(&mut self, step: Step) -> usize
        requires room { 1 ≤ spare_of self.old }
        ensures kept { step_in self.new result ≡ step }
        ensures held { ContainsKey self.new.whole result }
        ensures keeps { Keeps self.old self.new }
        ensures spare { spare_of self.old ≤ spare_of self.new + 1 }
    {
        self.whole.insert_reserved(step)
    }

    /// The reply at that place.
    pub(crate) fn reply(&self, at: u32) -> ReplyView<'_>
        requires { at < length self.now.kept.replies }
        ensures { reply_seen result ≡ reply_in self.now.kept.replies at }
    {
        self.kept.reply(at as usize)
    }

    /// The step under the key.
    pub(crate) fn step(&self, key: usize) -> &Step
        requires { ContainsKey self.now.whole key }
        ensures { result.now ≡ step_in self.now key }
    {
        &self.whole[key]
    }
}
