//! The batches that a dispatch sends: their legs, and the subscriptions of these.

ghost use Rattle.std.specs.Prelude.{◌≡◌, ℕ, suc, ◌++◌, [], length, All, IsTrue, true, false, Some, None, option_map, OnOk, OnErr, if◌then◌else◌};
ghost use Rattle.pipe_model.specs.Flow.{is_empty, subs_of};
ghost use Rattle.message_ack.specs.Ends.{sent_in};
ghost use Rattle.core_tables.specs.Tables.{IsNumbered};
ghost use Rattle.core_sends.specs.Batches.{closed_at, subs_at, messages_of, with_legs};

use core_tables::rows::BatchRow;
use message_ack::Legs;
use pipe_types::numbers::BatchNo;
use pipe_types::room::Sent;
use std::alloc::AllocError;

/// Notes the legs of the batches that are sent, none of which was sent before, and the subscriptions of the legs. Without
/// the memory for all of them nothing is noted.
pub(crate) fn begin_all(
    legs: &mut Legs,
    batches: &mut Vec<BatchRow>,
    units: &[Sent],
) -> Result<(), AllocError>
    requires within { All (IsNumbered (length batches.old.items)) units.now }
    requires not_begun { (i : ℕ) → is_empty (subs_of units.now (suc i)) ≡ false → sent_in legs.old (suc i) ≡ None }
    requires not_noted { (i : ℕ) → is_empty (subs_of units.now (suc i)) ≡ false → subs_at batches.old.items i ≡ Some [] }
    ensures begun { OnOk result ((i : ℕ) → sent_in legs.new (suc i) ≡ with_legs (messages_of batches.old.items (suc i)) (subs_of units.now (suc i)) (sent_in legs.old (suc i))) }
    ensures noted { OnOk result ((i : ℕ) → subs_at batches.new.items i ≡ option_map (λ subs. subs ++ subs_of units.now (suc i)) (subs_at batches.old.items i)) }
    ensures legs_same { OnErr result ((i : ℕ) → sent_in legs.new (suc i) ≡ sent_in legs.old (suc i)) }
    ensures subs_same { OnErr result ((i : ℕ) → subs_at batches.new.items i ≡ subs_at batches.old.items i) }
    ensures closed { (i : ℕ) → closed_at batches.new.items i ≡ closed_at batches.old.items i }
    ensures len { length batches.new.items ≡ length batches.old.items }
{
    let begun = begin(legs, batches, units);
    if begun.is_err() {
        forget_all(legs, units);
        clear_all(batches, units);
    }
    begun
}

/// Notes the legs and their subscriptions, and without the memory for all some of them.
fn begin(legs: &mut Legs, batches: &mut Vec<BatchRow>, units: &[Sent]) -> Result<(), AllocError>
    requires within { All (IsNumbered (length batches.old.items)) units.now }
    ensures begun { OnOk result ((b : ℕ) → sent_in legs.new b ≡ with_legs (messages_of batches.old.items b) (subs_of units.now b) (sent_in legs.old b)) }
    ensures noted { OnOk result ((i : ℕ) → subs_at batches.new.items i ≡ option_map (λ subs. subs ++ subs_of units.now (suc i)) (subs_at batches.old.items i)) }
    ensures legs_others { (b : ℕ) → is_empty (subs_of units.now b) ≡ true → sent_in legs.new b ≡ sent_in legs.old b }
    ensures subs_others { (i : ℕ) → is_empty (subs_of units.now (suc i)) ≡ true → subs_at batches.new.items i ≡ subs_at batches.old.items i }
    ensures closed { (i : ℕ) → closed_at batches.new.items i ≡ closed_at batches.old.items i }
    ensures len { length batches.new.items ≡ length batches.old.items }
{
    begin_each(legs, batches, units)?;
    note_each(batches, units)
}

/// Notes a leg of its batch for each unit, and without the memory for all for some.
fn begin_each(legs: &mut Legs, batches: &Vec<BatchRow>, units: &[Sent]) -> Result<(), AllocError>
    requires within { All (IsNumbered (length batches.now.items)) units.now }
    ensures begun { OnOk result ((b : ℕ) → sent_in legs.new b ≡ with_legs (messages_of batches.now.items b) (subs_of units.now b) (sent_in legs.old b)) }
    ensures others { (b : ℕ) → is_empty (subs_of units.now b) ≡ true → sent_in legs.new b ≡ sent_in legs.old b }
{
    for sent in units {
        let messages = batches[(sent.unit - 1) as usize].numbers.len();
        legs.add_leg(BatchNo(sent.unit), messages)?;
    }
    Ok(())
}

/// Notes the subscription of each unit at its batch, and without the memory for all of some.
fn note_each(batches: &mut Vec<BatchRow>, units: &[Sent]) -> Result<(), AllocError>
    requires within { All (IsNumbered (length batches.old.items)) units.now }
    ensures noted { OnOk result ((i : ℕ) → subs_at batches.new.items i ≡ option_map (λ subs. subs ++ subs_of units.now (suc i)) (subs_at batches.old.items i)) }
    ensures others { (i : ℕ) → is_empty (subs_of units.now (suc i)) ≡ true → subs_at batches.new.items i ≡ subs_at batches.old.items i }
    ensures closed { (i : ℕ) → closed_at batches.new.items i ≡ closed_at batches.old.items i }
    ensures len { length batches.new.items ≡ length batches.old.items }
{
    for sent in units {
        let row = &mut batches[(sent.unit - 1) as usize];
        row.subs.push(sent.sub)?;
    }
    Ok(())
}

/// Forgets the batch of each unit.
fn forget_all(legs: &mut Legs, units: &[Sent])
    ensures { (b : ℕ) → sent_in legs.new b ≡ (if is_empty (subs_of units.now b) then sent_in legs.old b else None) }
{
    for sent in units {
        legs.forget(BatchNo(sent.unit));
    }
}

/// Takes the subscriptions of each unit's batch away.
fn clear_all(batches: &mut Vec<BatchRow>, units: &[Sent])
    requires within { All (IsNumbered (length batches.old.items)) units.now }
    ensures cleared { (i : ℕ) → subs_at batches.new.items i ≡ (if is_empty (subs_of units.now (suc i)) then subs_at batches.old.items i else option_map (λ subs. []) (subs_at batches.old.items i)) }
    ensures closed { (i : ℕ) → closed_at batches.new.items i ≡ closed_at batches.old.items i }
    ensures len { length batches.new.items ≡ length batches.old.items }
{
    for sent in units {
        let row = &mut batches[(sent.unit - 1) as usize];
        row.subs.clear();
    }
}
