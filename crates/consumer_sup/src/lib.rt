//! The children of a consumer supervisor: one for each message that it runs, in numbered slots.
//!
//! `start` finds a free slot wherever one is left, and `start_at` takes the one that it is told. `ended` says what becomes of
//! a child: a temporary one that crashes is lost, a transient one runs its message again after each of its first three
//! crashes and is lost at the fourth. Memory is taken in `new` alone.
#![tactic(auto)]

ghost use Rattle.std.specs.Prelude.{◌≡◌, ◌<◌, ◌↔◌, Option, None, length, replicate, slice_set, option_map, is_none, position, IsTrue, IsSome, IfSome, IfOk, OnErr};
ghost use Rattle.pipe_types.specs.Children.{most_reruns, runs_again as runs_message_again};
ghost use Rattle.consumer_sup.specs.Children.{child_in, alive, end_of, after_end};

use pipe_types::numbers::MsgNo;
use pipe_types::topology::ChildMode;
use std::alloc::{AllocError, Global};
use std::marker::Model;

/// How many times a transient child runs its message again after a crash.
const MOST_RERUNS: u8 = 3;

/// A child that is alive: its message, and how many of its runs crashed.
#[derive(Clone, Copy, PartialEq, Eq)]
pub struct Child {
    pub no: MsgNo,
    pub crashes: u8,
}

/// What becomes of a child whose run ended.
#[derive(Clone, Copy, PartialEq, Eq)]
pub enum ChildEnd {
    Settled,
    Again,
    Lost,
}

/// Why no child was started.
#[derive(Clone, Copy, PartialEq, Eq)]
pub enum StartFault {
    Full,
}

/// The children of one supervisor.
#[derive(Drop)]
pub struct Children {
    mode: ChildMode,
    slots: Vec<Option<Child>>,
}

impl Model for Children {
    ghost use Rattle.std.specs.Prelude.{◌^◌, ◌<◌, vec_len};
    ghost use Rattle.consumer_sup.specs.Children.{Slots};

    ghost Value = { Slots };

    ghost view = { λ c. record { mode = c.mode; slots = c.slots.items } };

    ghost invariant = { λ c. vec_len c.slots < 2 ^ 16 };
}

impl Children {
    /// `max` free slots.
    pub fn new(alloc: Global, max: u16, mode: ChildMode) -> Result<Self, AllocError>
        ensures { IfOk result (λ children. children ≡ record { mode = mode; slots = replicate max None }) }
    {
        Ok(Children {
            mode,
            slots: vec![in alloc; None; max as usize]?,
        })
    }

    /// Starts a child for this message in a free slot, which is the answer.
    #[tactic(auto, using(crate::proofs::FreeSlots::full_without_free, crate::proofs::FreeSlots::free_below))]
    pub fn start(&mut self, no: MsgNo) -> Result<u16, StartFault>
        ensures free { IfOk result (λ slot. (slot < length self.old.slots) × (child_in self.old.slots slot ≡ None)) }
        ensures started { IfOk result (λ slot. self.new ≡ record self.old {
          slots = slice_set self.old.slots slot (Some (record { no = no; crashes = 0 }));
        }) }
        ensures full { (result ≡ Err StartFault.Full) ↔ (alive self.old.slots ≡ length self.old.slots) }
        ensures refused { OnErr result (self.new ≡ self.old) }
    {
        match free_slot(&self.slots) {
            Some(slot) => {
                self.slots[slot] = Some(Child { no, crashes: 0 });
                Ok(slot as u16)
            }
            None => Err(StartFault::Full),
        }
    }

    /// A free slot, and none where each has a child.
    #[tactic(auto, using(crate::proofs::FreeSlots::full_without_free, crate::proofs::FreeSlots::free_below))]
    pub fn free(&self) -> Option<u16>
        ensures free { IfSome result (λ slot. (slot < length self.now.slots) × (child_in self.now.slots slot ≡ None)) }
        ensures full { (result ≡ None) ↔ (alive self.now.slots ≡ length self.now.slots) }
    {
        match free_slot(&self.slots) {
            Some(slot) => Some(slot as u16),
            None => None,
        }
    }

    /// Starts a child for this message in this slot, which is free.
    pub fn start_at(&mut self, slot: u16, no: MsgNo)
        requires within { slot < length self.old.slots }
        requires free { child_in self.old.slots slot ≡ None }
        ensures { self.new ≡ record self.old {
          slots = slice_set self.old.slots slot (Some (record { no = no; crashes = 0 }));
        } }
    {
        self.slots[slot as usize] = Some(Child { no, crashes: 0 });
    }

    /// Ends a run of the child in this slot, which has one. The slot is free afterwards unless the child runs again.
    pub fn ended(&mut self, slot: u16, crashed: bool) -> ChildEnd
        requires { IsSome (child_in self.old.slots slot) }
        ensures end { IfSome (child_in self.old.slots slot) (λ child.
            result ≡ end_of self.old.mode child.crashes crashed) }
        ensures slot { IfSome (child_in self.old.slots slot) (λ child. self.new ≡ record self.old {
          slots = slice_set self.old.slots slot (after_end result child);
        }) }
    {
        let at = slot as usize;
        let child = self.slots[at].unwrap();
        if crashed && runs_again(self.mode, child.crashes) {
            self.slots[at] = Some(Child {
                no: child.no,
                crashes: child.crashes + 1,
            });
            return ChildEnd::Again;
        }
        self.slots[at] = None;
        if crashed {
            ChildEnd::Lost
        } else {
            ChildEnd::Settled
        }
    }

    /// The message of the child in this slot.
    pub fn holds(&self, slot: u16) -> Option<MsgNo>
        ensures { result ≡ option_map (λ child. child.no) (child_in self.now.slots slot) }
    {
        let child = self.slots.get(slot as usize).copied().flatten()?;
        Some(child.no)
    }

    /// Lets all children go.
    pub fn clear(&mut self)
        ensures { self.new ≡ record self.old { slots = replicate (length self.old.slots) None } }
    {
        self.slots.fill(None);
    }
}

/// The first free slot.
fn free_slot(slots: &[Option<Child>]) -> Option<usize>
    ensures first { result ≡ position is_none slots.now }
    ensures free { IfSome result (λ slot. (slot < length slots.now) × (child_in slots.now slot ≡ None)) }
{
    slots.iter().position(|slot| slot.is_none())
}

/// Whether a child that crashed this often before runs its message again after one more crash.
fn runs_again(mode: ChildMode, crashes: u8) -> bool
    ensures again { result ≡ runs_message_again mode crashes }
    ensures few { IsTrue result → crashes < most_reruns }
{
    match mode {
        ChildMode::Temporary => false,
        ChildMode::Transient => crashes < MOST_RERUNS,
    }
}
