//! The open batches by their keys, in the order in which they were opened.

ghost use Rattle.std.specs.Prelude.{◌≡◌, ◌-◌, ◌^◌, not, ◌==◌, ◌∷◌, [], ◌++◌, ℕ, ◌<◌, ◌||◌, Bool, nat_lt, All, List, Vec, length, bytes_eq, remove, slice_get, vec_capacity, ◌≤◌, option_map, option_copied, IfOk, OnOk, OnErr, IfSome, IfNone, Some, None, if◌then◌else◌};
ghost use Rattle.std.specs.{Global.{Global}, Map.{lookup, keys_of}, List.{IsDistinct}};
ghost use Rattle.batcher.specs.{Batches.{gathered}, Seen.{seen, more_ready, IsKept, PopsNumber, entries_of, key_in, HasRoom}, declared.messages.Messages.{Messages}};

use crate::messages::Messages;
use lru::LruCache;
use std::alloc::{AllocError, Global};
use std::marker::Model;

/// The open batches. The first entry of the map is the batch that was opened first.
#[derive(Drop)]
pub(crate) struct OpenBatches {
    /// There is no map until the first batch is opened.
    batches: Option<LruCache<Vec<u8>, Messages>>,
    /// It has room for a copy of each key, by which a batch is then found without memory.
    copy: Vec<u8>,
}

impl Model for OpenBatches {
    ghost use Rattle.std.specs.Prelude.{List, Vec, ℕ, IfSome, vec_capacity};
    ghost use Rattle.std.specs.Global.{Global};
    ghost use Rattle.batcher.specs.declared.messages.Messages.{Messages};
    ghost use Rattle.batcher.specs.Seen.{entries_of, HasRoom};

    ghost Value = { List (Vec ℕ Global × Messages) };

    ghost view = { λ b. entries_of b.batches };

    ghost invariant = { λ b. IfSome b.batches (HasRoom (vec_capacity b.copy)) };
}

impl OpenBatches {
    /// No open batch, and no memory.
    pub(crate) fn new(alloc: Global) -> Self
        ensures { result ≡ [] }
    {
        OpenBatches {
            batches: None,
            copy: Vec::new(alloc),
        }
    }

    /// Whether there is no open batch.
    pub(crate) fn is_empty(&self) -> bool
        ensures { result ≡ (length self.now == 0) }
    {
        match &self.batches {
            Some(batches) => batches.is_empty(),
            None => true,
        }
    }

    /// The map, if there is one.
    pub(crate) fn map(&self) -> Option<&LruCache<Vec<u8>, Messages>>
        ensures { entries_of (option_copied result) ≡ self.now }
    {
        self.batches.as_ref()
    }

    /// The messages of this key.
    pub(crate) fn get(&self, key: &[u8]) -> Option<&Messages>
        ensures { option_copied result ≡ lookup (λ k. bytes_eq key.now k.items) self.now }
    {
        match &self.batches {
            Some(batches) => find_in(batches, key),
            None => None,
        }
    }

    /// The messages of the batch that was opened first.
    pub(crate) fn first(&self) -> Option<&Messages>
        ensures { option_copied result ≡ option_map (λ e. e.1) (slice_get self.now 0) }
    {
        match &self.batches {
            Some(batches) => match batches.peek_mru() {
                Some((_, messages)) => Some(messages),
                None => None,
            },
            None => None,
        }
    }

    /// Puts a message into the batch of its key, where there is one, and gives the number of messages that it then has.
    pub(crate) fn join(
        &mut self,
        key: &[u8],
        n: u32,
        flush: bool,
    ) -> Result<Option<usize>, AllocError>
        ensures joined { IfOk result (λ r. IfSome r (λ len. (now : ℕ) → seen self.new ≡ gathered key.now n flush now (seen self.old))) }
        ensures kept { IfOk result (λ r. IfSome r (λ len. (size ready newest : ℕ) (in_order : Bool) → IsKept size ready in_order newest (seen self.old) → IsKept size (more_ready ready (len == size || flush)) in_order newest (seen self.new))) }
        ensures absent { IfOk result (λ r. IfNone r (lookup (λ k. bytes_eq key.now k.items) self.old ≡ None)) }
        ensures left { IfOk result (λ r. IfNone r (self.new ≡ self.old)) }
        ensures unchanged { OnErr result (seen self.new ≡ seen self.old) }
    {
        if let Some(batches) = &mut self.batches {
            return join_in(batches, key, n, flush);
        }
        Ok(None)
    }

    /// Begins a batch with one message, behind all others. No batch has its key.
    pub(crate) fn begin(
        &mut self,
        alloc: Global,
        key: &[u8],
        n: u32,
        flush: bool,
        now: u64,
    ) -> Result<(), AllocError>
        requires { lookup (λ k. bytes_eq key.now k.items) self.old ≡ None }
        ensures begun { OnOk result (seen self.new ≡ seen self.old ++ record { key = key.now; numbers = n ∷ []; flush = flush; opened = now } ∷ []) }
        ensures unchanged { OnErr result (self.new ≡ self.old) }
    {
        self.copy.clear();
        self.copy.reserve(key.len())?;
        match &mut self.batches {
            Some(batches) => begin_in(alloc, batches, key, n, flush, now),
            None => {
                let mut batches = LruCache::unbounded(alloc)?;
                begin_in(alloc, &mut batches, key, n, flush, now)?;
                self.batches = Some(batches);
                Ok(())
            }
        }
    }

    /// Takes out the batch at this place. The first is found at once, another in time for its place.
    pub(crate) fn remove(&mut self, at: usize) -> (Vec<u8>, Messages)
        requires { at < length self.old }
        ensures entry { slice_get self.old at ≡ Some result }
        ensures entries { self.new ≡ remove self.old at }
    {
        match &mut self.batches {
            Some(batches) => remove_in(batches, &mut self.copy, at),
            None => unreachable!(),
        }
    }

    /// Takes the last number out of the last batch, which keeps its place. There is a batch, and each has a number.
    pub(crate) fn pop_number(&mut self) -> u32
        requires some { 0 < length self.old }
        requires begun { All (λ batch. 0 < length batch.numbers) (seen self.old) }
        ensures { PopsNumber self.old self.new result }
    {
        match &mut self.batches {
            Some(batches) => pop_number_in(batches, &mut self.copy),
            None => unreachable!(),
        }
    }

    /// Removes the last batch where it has no message.
    pub(crate) fn remove_empty(&mut self)
        ensures { (front : List (Vec ℕ Global × Messages)) (last : Vec ℕ Global × Messages) → self.old ≡ front ++ last ∷ [] → self.new ≡ (if nat_lt 0 (length last.1.numbers.items) then front ++ last ∷ [] else front) }
    {
        if let Some(batches) = &mut self.batches {
            return remove_empty_in(batches);
        }
    }
}

/// Whether the two are the same.
fn is_same(one: &[u8], other: &[u8]) -> bool
    ensures { result ≡ bytes_eq one.now other.now }
{
    one == other
}

/// The messages of this key. Where it is the key of the batch that was opened first, nothing is searched.
fn find_in<'a>(batches: &'a LruCache<Vec<u8>, Messages>, key: &[u8]) -> Option<&'a Messages>
    ensures { option_copied result ≡ lookup (λ k. bytes_eq key.now k.items) batches.now.entries }
{
    if let Some((first, messages)) = batches.peek_mru() {
        if is_same(key, first.as_slice()) {
            return Some(messages);
        }
    }
    batches.peek(key)
}

/// Puts a message into the batch of its key, where there is one.
fn join_in(
    batches: &mut LruCache<Vec<u8>, Messages>,
    key: &[u8],
    n: u32,
    flush: bool,
) -> Result<Option<usize>, AllocError>
    ensures joined { IfOk result (λ r. IfSome r (λ len. (now : ℕ) → seen batches.new.entries ≡ gathered key.now n flush now (seen batches.old.entries))) }
    ensures kept { IfOk result (λ r. IfSome r (λ len. (size ready newest : ℕ) (in_order : Bool) → IsKept size ready in_order newest (seen batches.old.entries) → IsKept size (more_ready ready (len == size || flush)) in_order newest (seen batches.new.entries))) }
    ensures absent { IfOk result (λ r. IfNone r (lookup (λ k. bytes_eq key.now k.items) batches.old.entries ≡ None)) }
    ensures left { IfOk result (λ r. IfNone r (batches.new.entries ≡ batches.old.entries)) }
    ensures unchanged { OnErr result (seen batches.new.entries ≡ seen batches.old.entries) }
    ensures room { (capacity : ℕ) → HasRoom capacity batches.old → HasRoom capacity batches.new }
{
    match batches.peek_mut(key) {
        Some(messages) => {
            messages.push(n, flush)?;
            Ok(Some(messages.numbers.len()))
        }
        None => Ok(None),
    }
}

/// Begins a batch with one message, behind all others. No batch has its key.
fn begin_in(
    alloc: Global,
    batches: &mut LruCache<Vec<u8>, Messages>,
    key: &[u8],
    n: u32,
    flush: bool,
    now: u64,
) -> Result<(), AllocError>
    requires absent { lookup (λ k. bytes_eq key.now k.items) batches.old.entries ≡ None }
    requires wide { batches.old.cap ≡ 2 ^ 64 - 1 }
    ensures begun { OnOk result (seen batches.new.entries ≡ seen batches.old.entries ++ record { key = key.now; numbers = n ∷ []; flush = flush; opened = now } ∷ []) }
    ensures room { (capacity : ℕ) → length key.now ≤ capacity → HasRoom capacity batches.old → HasRoom capacity batches.new }
    ensures unchanged { OnErr result (batches.new.entries ≡ batches.old.entries) }
{
    let copy = Vec::from_slice(alloc, key)?;
    let mut numbers = Vec::new(alloc);
    numbers.push(n)?;
    let messages = Messages {
        numbers,
        flush,
        opened: now,
    };
    // There are fewer batches than the map may hold, so that it drops none.
    let _few = batches.len();
    batches.put(copy, messages)?;
    batches.demote(key);
    Ok(())
}

/// Takes out the batch at this place.
fn remove_in(
    batches: &mut LruCache<Vec<u8>, Messages>,
    copy: &mut Vec<u8>,
    at: usize,
) -> (Vec<u8>, Messages)
    requires within { at < length batches.old.entries }
    requires room { HasRoom (vec_capacity copy.old) batches.old }
    ensures entry { slice_get batches.old.entries at ≡ Some result }
    ensures entries { batches.new.entries ≡ remove batches.old.entries at }
    ensures room { HasRoom (vec_capacity copy.new) batches.new }
{
    if at == 0 {
        return batches.pop_mru().unwrap();
    }
    copy_key(batches, copy, at);
    batches.pop_entry(copy.as_slice()).unwrap()
}

/// Copies the key of the batch at this place.
fn copy_key(batches: &LruCache<Vec<u8>, Messages>, copy: &mut Vec<u8>, at: usize)
    requires within { at < length batches.now.entries }
    requires room { HasRoom (vec_capacity copy.old) batches.now }
    ensures copied { option_map key_in (slice_get batches.now.entries at) ≡ Some copy.new.items }
    ensures capacity { vec_capacity copy.old ≤ vec_capacity copy.new }
    ensures apart { IsDistinct (λ (j k : Vec ℕ Global). bytes_eq j.items k.items) (keys_of batches.now.entries) }
{
    let key = key_at(batches, at);
    copy.clear();
    copy.extend_from_slice(key.as_slice()).unwrap();
    let _apart = batches.len();
}

/// The key of the batch at this place: at once for the last, and otherwise in time for the place.
fn key_at(batches: &LruCache<Vec<u8>, Messages>, at: usize) -> &Vec<u8>
    requires { at < length batches.now.entries }
    ensures { option_map (λ entry. entry.0) (slice_get batches.now.entries at) ≡ Some result.now }
{
    if at == batches.len() - 1 {
        let (key, _) = batches.peek_lru().unwrap();
        return key;
    }
    let (key, _) = batches.iter().nth(at).unwrap();
    key
}

/// Takes the last number out of the last batch.
fn pop_number_in(batches: &mut LruCache<Vec<u8>, Messages>, copy: &mut Vec<u8>) -> u32
    requires some { 0 < length batches.old.entries }
    requires begun { All (λ batch. 0 < length batch.numbers) (seen batches.old.entries) }
    requires room { HasRoom (vec_capacity copy.old) batches.old }
    ensures popped { PopsNumber batches.old.entries batches.new.entries result }
    ensures room { HasRoom (vec_capacity copy.new) batches.new }
{
    let last = batches.len() - 1;
    copy_key(batches, copy, last);
    let messages = batches.peek_mut(copy.as_slice()).unwrap();
    messages.pop()
}

/// Removes the last batch where it has no message.
fn remove_empty_in(batches: &mut LruCache<Vec<u8>, Messages>)
    ensures left { (front : List (Vec ℕ Global × Messages)) (last : Vec ℕ Global × Messages) → batches.old.entries ≡ front ++ last ∷ [] → batches.new.entries ≡ (if nat_lt 0 (length last.1.numbers.items) then front ++ last ∷ [] else front) }
    ensures room { (capacity : ℕ) → HasRoom capacity batches.old → HasRoom capacity batches.new }
{
    if ends_empty(batches) {
        batches.pop_lru();
    }
}

/// Whether the last batch has no message.
fn ends_empty(batches: &LruCache<Vec<u8>, Messages>) -> bool
    ensures { (front : List (Vec ℕ Global × Messages)) (last : Vec ℕ Global × Messages) → batches.now.entries ≡ front ++ last ∷ [] → result ≡ not (nat_lt 0 (length last.1.numbers.items)) }
{
    match batches.peek_lru() {
        Some((_, messages)) => messages.numbers.is_empty(),
        None => false,
    }
}
