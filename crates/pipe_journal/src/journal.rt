//! The list of steps.

ghost use Rattle.std.specs.Prelude.{◌≡◌, ℕ, ◌+◌, ◌<◌, ◌≤◌, ◌==◌, [], ◌∷◌, ◌++◌, length, slice_get, Some, option_copied, option_map, IsOk, IfOk, OnOk, OnErr, IfErr};
ghost use Rattle.pipe_journal.specs.{Items.{reply_seen, records_seen, replies_seen}, Readers.{step_at, payload_at, reply_at}, Views.{step_seen}};

use crate::acked::AckRow;
use crate::entry::{Entry, pack};
use crate::items::{Records, Replies, ReplyView};
use crate::kept::Kept;
use crate::store::Store;
use crate::view::{StepView, records_in, replies_in, view_entry};
use pipe_types::step::Step;
use slab::Slab;
use std::alloc::{AllocError, Global};
use std::marker::Model;

/// The steps so far.
#[derive(Drop)]
pub struct Journal {
    entries: Vec<Entry>,
    // What does not fit into the entries.
    store: Store,
    // The acknowledged messages.
    acked: Vec<AckRow>,
    alloc: Global,
}

impl Model for Journal {
    ghost use Rattle.std.specs.Prelude.{◌-◌, min, vec_len, vec_capacity};
    ghost use Rattle.pipe_journal.specs.Recorded.{Recorded};
    ghost use Rattle.pipe_journal.specs.Entries.{AreHeld, spare_of, steps_of};

    ghost Value = { Recorded };

    ghost view = { λ j. record {
      steps = steps_of j.store j.entries.items;
      spare = min (vec_capacity j.entries - vec_len j.entries) (spare_of j.store);
      acked = record { rows = j.acked.items; room = vec_capacity j.acked };
    } };

    ghost invariant = { λ j. AreHeld j.store j.entries.items };
}

impl Journal {
    /// A journal with no step. What it takes later comes from `alloc`.
    pub fn new(alloc: Global) -> Self
        ensures empty { result.steps ≡ [] }
        ensures none { result.acked.rows ≡ [] }
    {
        Journal {
            entries: Vec::new(alloc),
            store: Store {
                kept: Kept::new(alloc),
                whole: Slab::new(alloc),
            },
            acked: Vec::new(alloc),
            alloc,
        }
    }

    /// Writes the step. Where memory is wanting, the step comes back.
    pub fn push(&mut self, step: Step) -> Result<(), (Step, AllocError)>
        ensures written { OnOk result (self.new.steps ≡ step ∷ self.old.steps) }
        ensures as_before { OnErr result (self.new.steps ≡ self.old.steps) }
        ensures step_returned { IfErr result (λ refused. refused.0 ≡ step) }
        ensures spare { self.old.spare ≤ self.new.spare + 1 }
        ensures takes_spare { OnErr result (self.old.spare ≡ 0) }
        ensures same_acked { self.new.acked ≡ self.old.acked }
    {
        if let Err(error) = self.reserve(1) {
            return Err((step, error));
        }
        self.push_spare(step);
        Ok(())
    }

    /// Makes room for that many further steps, which then take no memory.
    pub fn reserve(&mut self, entries: u32) -> Result<(), AllocError>
        ensures same_steps { self.new.steps ≡ self.old.steps }
        ensures spare { self.old.spare ≤ self.new.spare }
        ensures room { OnOk result (entries ≤ self.new.spare) }
        ensures had_room { entries ≤ self.old.spare → IsOk result }
        ensures same_acked { self.new.acked ≡ self.old.acked }
    {
        self.entries.reserve(entries as usize)?;
        self.store.reserve(entries as usize)
    }

    /// Writes the step into room that was made before.
    #[inline(always)]
    pub fn push_spare(&mut self, step: Step)
        requires { 1 ≤ self.old.spare }
        ensures written { self.new.steps ≡ step ∷ self.old.steps }
        ensures spare { self.old.spare ≤ self.new.spare + 1 }
        ensures same_acked { self.new.acked ≡ self.old.acked }
    {
        let entry = pack(&mut self.store, step);
        self.entries.push_reserved(entry);
    }

    /// Makes room for that many rows of acknowledged messages in all, which then take no memory.
    pub fn reserve_acked(&mut self, rows: usize) -> Result<(), AllocError>
        ensures same_steps { self.new.steps ≡ self.old.steps }
        ensures same_spare { self.new.spare ≡ self.old.spare }
        ensures same_rows { self.new.acked.rows ≡ self.old.acked.rows }
        ensures kept_room { self.old.acked.room ≤ self.new.acked.room }
        ensures room { OnOk result (rows ≤ self.new.acked.room) }
    {
        self.acked.reserve(rows.saturating_sub(self.acked.len()))
    }

    /// Notes an acknowledged message behind the others, in room that was made before.
    pub fn note_acked(&mut self, row: AckRow)
        requires { length self.old.acked.rows < self.old.acked.room }
        ensures noted { self.new.acked.rows ≡ self.old.acked.rows ++ row ∷ [] }
        ensures same_room { self.new.acked.room ≡ self.old.acked.room }
        ensures same_steps { self.new.steps ≡ self.old.steps }
        ensures same_spare { self.new.spare ≡ self.old.spare }
    {
        self.acked.push_reserved(row);
    }

    /// The acknowledged messages that were noted, in their order.
    pub fn acked(&self) -> &[AckRow]
        ensures { result.now ≡ self.now.acked.rows }
    {
        &self.acked
    }

    /// The number of steps.
    pub fn len(&self) -> u64
        ensures { result ≡ length self.now.steps }
    {
        self.entries.len() as u64
    }

    pub fn is_empty(&self) -> bool
        ensures { result ≡ (length self.now.steps == 0) }
    {
        self.entries.is_empty()
    }

    /// A copy of the step at that place from 0, the oldest first, and none past the end.
    pub fn get(&self, at: u64) -> Result<Option<Step>, AllocError>
        ensures { IfOk result (λ found. found ≡ step_at self.now.steps at) }
    {
        if self.len() <= at {
            return Ok(None);
        }
        Ok(Some(self.view(at).to_step(self.alloc)?))
    }

    /// The step at that place from 0, the oldest first, with its lists lent.
    #[inline(always)]
    pub fn view(&self, at: u64) -> StepView<'_>
        requires { at < length self.now.steps }
        ensures { step_at self.now.steps at ≡ Some (step_seen result) }
    {
        view_entry(&self.store, self.entries[at as usize])
    }

    /// The records of the step at that place from 0. No view of the step is made.
    #[inline(always)]
    fn records(&self, at: u64) -> Records<'_>
        requires { at < length self.now.steps }
        ensures { (item : ℕ) → payload_at self.now.steps at item ≡ slice_get (records_seen result) item }
    {
        records_in(&self.store, self.entries[at as usize])
    }

    /// The replies of the step at that place from 0. No view of the step is made.
    #[inline(always)]
    fn replies(&self, at: u64) -> Replies<'_>
        requires { at < length self.now.steps }
        ensures { (item : ℕ) → reply_at self.now.steps at item ≡ slice_get (replies_seen result) item }
    {
        replies_in(&self.store, self.entries[at as usize])
    }

    /// The record at place `item` of the Accept or of the late answer at place `at`, both from 0, and none where no such
    /// record is.
    #[inline(always)]
    pub fn payload_at(&self, at: u64, item: u32) -> Option<&[u8]>
        ensures { option_copied result ≡ payload_at self.now.steps at item }
    {
        if self.len() <= at {
            return None;
        }
        self.records(at).get(item as usize)
    }

    /// The reply at place `item` of the Done at place `at`, both from 0, or of the ChildEnd there with `item` 0, and none
    /// where no such reply is.
    #[inline(always)]
    pub fn reply_at(&self, at: u64, item: u32) -> Option<ReplyView<'_>>
        ensures { option_map reply_seen result ≡ reply_at self.now.steps at item }
    {
        if self.len() <= at {
            return None;
        }
        self.replies(at).get(item as usize)
    }
}
