//! The messages of one open batch, and counts of the batches that are ready.

ghost use Rattle.std.specs.Prelude.{◌≡◌, ◌<◌, [], ◌∷◌, ◌++◌, ◌-◌, ◌^◌, ◌&&◌, ◌||◌, if◌then◌else◌, false, length, OnOk, OnErr};
ghost use Rattle.batcher.specs.{Batches.{first_of, joined}, Seen.{is_ready, batch_in, more_ready as with_more, less_ready as with_less}};

use pipe_types::numbers::MsgNo;
use std::alloc::AllocError;

/// The numbers of the messages in the order in which they were gathered, whether the last has flush mode, and the tick at
/// which the first was gathered.
#[derive(Drop)]
pub struct Messages {
    pub(crate) numbers: Vec<u32>,
    pub(crate) flush: bool,
    pub(crate) opened: u64,
}

impl Messages {
    /// The first message.
    pub(crate) fn first(&self) -> MsgNo
        ensures { result.0 ≡ first_of (batch_in [] self.now) }
    {
        MsgNo(self.numbers.first().copied().unwrap_or(0))
    }

    /// Puts a message behind the others.
    pub(crate) fn push(&mut self, n: u32, flush: bool) -> Result<(), AllocError>
        ensures joined { OnOk result (batch_in [] self.new ≡ joined (batch_in [] self.old) n flush) }
        ensures unchanged { OnErr result (batch_in [] self.new ≡ batch_in [] self.old) }
    {
        self.numbers.push(n)?;
        self.flush = flush;
        Ok(())
    }

    /// Takes out the last message. What is left does not end in flush mode.
    pub(crate) fn pop(&mut self) -> u32
        requires { 0 < length self.old.numbers.items }
        ensures numbers { self.old.numbers.items ≡ self.new.numbers.items ++ result ∷ [] }
        ensures opened { self.new.opened ≡ self.old.opened }
        ensures flush { self.new.flush ≡ false }
    {
        self.flush = false;
        self.numbers.pop().unwrap()
    }

    /// Whether the batch is full or ends in flush mode.
    pub(crate) fn is_ready(&self, batch_size: usize) -> bool
        ensures { result ≡ is_ready batch_size (batch_in [] self.now) }
    {
        self.numbers.len() == batch_size || self.flush
    }

    pub(crate) fn into_numbers(self) -> Vec<u32>
        ensures { result ≡ self.numbers }
    {
        self.numbers
    }
}

/// Whether one of the two holds.
pub(crate) fn is_either(one: bool, other: bool) -> bool
    ensures { result ≡ (one || other) }
{
    one || other
}

/// Whether both hold.
pub(crate) fn is_both(one: bool, other: bool) -> bool
    ensures { result ≡ (one && other) }
{
    one && other
}

/// The count of ready batches where one that joins them is ready, or is not. The largest number stands for a count that is
/// not known.
pub(crate) fn more_ready(ready: usize, is_ready: bool) -> usize
    ensures { result ≡ with_more ready is_ready }
{
    if is_ready && ready < usize::MAX {
        ready + 1
    } else {
        ready
    }
}

/// The count of ready batches where one that leaves them was ready, or was not.
pub(crate) fn less_ready(ready: usize, was_ready: bool) -> usize
    ensures { result ≡ with_less ready was_ready }
{
    if was_ready && ready < usize::MAX {
        ready.saturating_sub(1)
    } else {
        ready
    }
}

/// The count of ready batches where the last batch was changed: it is not known, but where none is left.
pub(crate) fn ready_in_rest(is_empty: bool) -> usize
    ensures { result ≡ (if is_empty then 0 else 2 ^ 64 - 1) }
{
    if is_empty { 0 } else { usize::MAX }
}
