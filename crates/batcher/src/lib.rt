//! The open batches of one batcher.
//!
//! A `Batcher` keeps one open batch for each key, in the order in which they were opened, and of each message its number
//! alone: no payload comes here, and a key takes memory for the message that opens its batch alone. `closable` gives the
//! first open batch for which a trigger holds. Only `gather` takes memory, and after want of it nothing has changed.
#![tactic(auto)]

ghost use Rattle.std.specs.Prelude.{◌≡◌, ◌+◌, ◌-◌, ◌<◌, ◌↔◌, nat_le, ◌++◌, [], take, drop, remove, length, slice_get, option_map, All, IsTrue, IsNone, IfSome, IfNone, OnOk, OnErr, option_to_list};
ghost use Rattle.std.specs.List.{flat_map};
ghost use Rattle.batcher.specs.{Batches.{fits as key_fits, gathered, trigger_of, first_of, left_of, numbers_in, IsClosable}, Seen.{batch_in, first_has_passed}};

mod messages;
mod open;

use messages::Messages;
use open::OpenBatches;
use pipe_types::bytes::Bytes;
use pipe_types::message::Trigger;
use pipe_types::numbers::{BatchNo, MsgNo};
use std::alloc::{AllocError, Global};
use std::marker::Model;

/// An open batch that may close: its place among the open batches, from 0 in the order in which they were opened, its
/// first message, and the trigger that holds.
#[derive(Clone, Copy, PartialEq, Eq)]
pub struct Closable {
    pub at: usize,
    pub first: MsgNo,
    pub trigger: Trigger,
}

/// A batch that was closed. The messages are given by their numbers, in the order in which they were gathered.
#[derive(Drop)]
pub struct ClosedBatch {
    pub no: BatchNo,
    pub key: Bytes,
    pub trigger: Trigger,
    pub numbers: Vec<u32>,
}

/// The open batches of one batcher. The timeout is in milliseconds.
#[derive(Drop)]
pub struct Batcher {
    alloc: Global,
    batch_size: u32,
    batch_timeout: u64,
    batches: OpenBatches,
    /// No more open batches are full or end in flush mode. The largest number says that it is not known.
    ready: usize,
    /// Where this is set, the open batches were opened in the order of their ticks, none after the newest.
    in_order: bool,
    newest: u64,
}

impl Model for Batcher {
    ghost use Rattle.batcher.specs.Batches.{Batches};
    ghost use Rattle.batcher.specs.Seen.{seen, IsKept};

    ghost Value = { Batches };

    ghost view = { λ b. record { batch_size = b.batch_size; batch_timeout = b.batch_timeout; batches = seen b.batches } };

    ghost invariant = { λ b. IsKept b.batch_size b.ready b.in_order b.newest (seen b.batches) };
}

impl Batcher {
    /// A batcher with no open batch, which takes its memory here. It takes none yet.
    pub fn new(alloc: Global, batch_size: u32, batch_timeout: u64) -> Self
        ensures { result ≡ record { batch_size = batch_size; batch_timeout = batch_timeout; batches = [] } }
    {
        Batcher {
            alloc,
            batch_size,
            batch_timeout,
            batches: OpenBatches::new(alloc),
            ready: 0,
            in_order: true,
            newest: 0,
        }
    }

    /// Whether a message of this key fits: its batch is short of the size and does not end in flush mode, or it would be
    /// the first of its batch. In time for the key.
    pub fn fits(&self, key: &[u8]) -> bool
        ensures { result ≡ key_fits self.now.batch_size key.now self.now.batches }
    {
        match self.batches.get(key) {
            Some(messages) => {
                messages.numbers.len() < self.batch_size as usize && !messages.flush
            }
            None => 0 < self.batch_size,
        }
    }

    /// Puts a message into the open batch of its key, or into a new one behind all others. `flush` says that it has
    /// flush mode, and `now` is the tick.
    pub fn gather(&mut self, key: &[u8], no: MsgNo, flush: bool, now: u64) -> Result<(), AllocError>
        requires { IsTrue (key_fits self.old.batch_size key.now self.old.batches) }
        ensures gathered { OnOk result (self.new ≡ record self.old { batches = gathered key.now no.0 flush now self.old.batches }) }
        ensures unchanged { OnErr result (self.new ≡ self.old) }
    {
        let len = match self.batches.join(key, no.0, flush)? {
            Some(len) => len,
            None => {
                self.batches.begin(self.alloc, key, no.0, flush, now)?;
                self.in_order = messages::is_both(self.in_order, self.newest <= now);
                self.newest = now;
                let is_ready = messages::is_either(1 == self.batch_size, flush);
                self.ready = messages::more_ready(self.ready, is_ready);
                return Ok(());
            }
        };
        let is_ready = messages::is_either(len == self.batch_size as usize, flush);
        self.ready = messages::more_ready(self.ready, is_ready);
        Ok(())
    }

    /// The first open batch for which a trigger holds, size before flush before timeout, with that trigger. `dry` says
    /// that nothing more comes to the batcher. In constant time where no batch is full, ends in flush mode or was opened
    /// long enough ago, unless ticks have fallen or messages were dumped.
    pub fn closable(&self, now: u64, dry: bool) -> Option<Closable>
        ensures closable { IfSome result (IsClosable self.now now dry) }
        ensures first { IfSome result (λ c. All (λ batch. trigger_of self.now now dry batch ≡ None) (take c.at self.now.batches)) }
        ensures none { IsNone result ↔ All (λ batch. trigger_of self.now now dry batch ≡ None) self.now.batches }
    {
        if !dry && self.ready == 0 && self.in_order && !self.first_has_passed(now) {
            return None;
        }
        let Some(batches) = self.batches.map() else {
            return None;
        };
        let mut entries = batches.iter();
        for at in 0..batches.len() {
            let (_, messages) = entries.next().unwrap();
            if let Some(trigger) = self.trigger(messages, now, dry) {
                let first = messages.first();
                return Some(Closable { at, first, trigger });
            }
        }
        None
    }

    /// The first open batch that begins with this message and for which a trigger holds, with that trigger. In time for the
    /// open batches.
    pub fn closable_at(&self, first: MsgNo, now: u64, dry: bool) -> Option<Closable>
        ensures closable { IfSome result (IsClosable self.now now dry) }
        ensures first { IfSome result (λ c. c.first ≡ first) }
        ensures earliest { IfSome result (λ c. All (λ batch. first_of batch ≡ first.0 → trigger_of self.now now dry batch ≡ None) (take c.at self.now.batches)) }
        ensures none { IsNone result ↔ All (λ batch. first_of batch ≡ first.0 → trigger_of self.now now dry batch ≡ None) self.now.batches }
    {
        let Some(batches) = self.batches.map() else {
            return None;
        };
        let mut entries = batches.iter();
        for at in 0..batches.len() {
            let (_, messages) = entries.next().unwrap();
            if let Some(trigger) = self.trigger_at(messages, first, now, dry) {
                return Some(Closable { at, first, trigger });
            }
        }
        None
    }

    /// Takes out the open batch at this place: the first in constant time, another in time for its place. The others keep their
    /// order. It takes no memory.
    pub fn close(&mut self, at: usize, no: BatchNo, trigger: Trigger) -> ClosedBatch
        requires { at < length self.old.batches }
        ensures no { result.no ≡ no }
        ensures trigger { result.trigger ≡ trigger }
        ensures key { IfSome (slice_get self.old.batches at) (λ batch. result.key ≡ batch.key) }
        ensures numbers { IfSome (slice_get self.old.batches at) (λ batch. result.numbers.items ≡ batch.numbers) }
        ensures batches { self.new ≡ record self.old { batches = remove self.old.batches at } }
    {
        let (key, messages) = self.batches.remove(at);
        let was_ready = messages.is_ready(self.batch_size as usize);
        self.ready = messages::less_ready(self.ready, was_ready);
        self.in_order = messages::is_either(self.in_order, self.batches.is_empty());
        ClosedBatch {
            no,
            key: Bytes::from_vec(key),
            trigger,
            numbers: messages.into_numbers(),
        }
    }

    /// Gives out the held messages one by one, the last of the last batch first. What is left of that batch has no flush
    /// mode; where nothing is left, it is gone.
    pub fn dump(&mut self) -> Option<MsgNo>
        ensures numbers { numbers_in self.old.batches ≡ numbers_in self.new.batches ++ option_to_list (option_map (λ no. no.0) result) }
        ensures none { IsNone result ↔ (self.old.batches ≡ []) }
        ensures limits { self.new ≡ record self.old { batches = self.new.batches } }
        ensures others { take (length self.old.batches - 1) self.new.batches ≡ take (length self.old.batches - 1) self.old.batches }
        ensures last { drop (length self.old.batches - 1) self.new.batches ≡ flat_map left_of (drop (length self.old.batches - 1) self.old.batches) }
    {
        if self.batches.is_empty() {
            return None;
        }
        let n = self.batches.pop_number();
        self.batches.remove_empty();
        self.ready = messages::ready_in_rest(self.batches.is_empty());
        Some(MsgNo(n))
    }

    /// Whether the batch that was opened first has been open so long.
    fn first_has_passed(&self, now: u64) -> bool
        ensures { result ≡ first_has_passed self.now.batch_timeout now self.now.batches }
    {
        match self.batches.first() {
            Some(messages) => has_passed(messages.opened, self.batch_timeout, now),
            None => false,
        }
    }

    /// The first trigger that holds of an open batch, where it begins with this message.
    fn trigger_at(&self, messages: &Messages, first: MsgNo, now: u64, dry: bool) -> Option<Trigger>
        ensures begins { IfSome result (λ trigger. first_of (batch_in [] messages.now) ≡ first.0) }
        ensures trigger { IfSome result (λ trigger. trigger_of self.now now dry (batch_in [] messages.now) ≡ Some trigger) }
        ensures none { IfNone result (first_of (batch_in [] messages.now) ≡ first.0 → trigger_of self.now now dry (batch_in [] messages.now) ≡ None) }
    {
        if messages.first().0 == first.0 {
            self.trigger(messages, now, dry)
        } else {
            None
        }
    }

    /// The first trigger that holds of an open batch.
    fn trigger(&self, messages: &Messages, now: u64, dry: bool) -> Option<Trigger>
        ensures { result ≡ trigger_of self.now now dry (batch_in [] messages.now) }
    {
        if messages.numbers.len() == self.batch_size as usize {
            Some(Trigger::Size)
        } else if messages.flush || dry {
            Some(Trigger::Flush)
        } else if has_passed(messages.opened, self.batch_timeout, now) {
            Some(Trigger::Timeout)
        } else {
            None
        }
    }
}

/// Whether so much time has passed since then.
fn has_passed(since: u64, timeout: u64, now: u64) -> bool
    ensures { result ≡ nat_le (since + timeout) now }
{
    since <= now && timeout <= now - since
}
