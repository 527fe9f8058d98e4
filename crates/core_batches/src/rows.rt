//! What a call of a batcher makes of one row.

ghost use Rattle.std.specs.Prelude.{◌≡◌, ℕ, ◌+◌, ◌-◌, ◌<◌, ◌≤◌, suc, length, drop, slice_get, vec_capacity, option_map, if◌then◌else◌, ◌==◌, Some, IsTrue, IfSome, OnOk, OnErr};
ghost use Rattle.pipe_types.specs.{declared.numbers.StageNo.{StageNo as Stage}, declared.message.Place.TheVariants.{Gathered}};
ghost use Rattle.pipe_model.specs.Content.{key_in};
ghost use Rattle.pipe_journal.specs.{Items.{message_seen, reply_seen}, Readers.{reply_at}};
ghost use Rattle.batcher.specs.Batches.{fits};
ghost use Rattle.stage_subs.specs.Subs.{row_of, IsChanged};
ghost use Rattle.core_tables.specs.Tables.{queue_at};
ghost use Rattle.core_laws.specs.Contents.{passed_in};
ghost use Rattle.core_batches.specs.Rows.{with_message, handled_on};

use batcher::Batcher;
use core_tables::place_table::PlaceTable;
use core_tables::rows::ContentRow;
use pipe_journal::{Journal, MessageView, ReplyView};
use pipe_types::message::Place;
use pipe_types::numbers::{MsgNo, StageNo, SubNo};
use stage_subs::Subs;
use std::alloc::AllocError;
use std::collections::VecDeque;

/// The first unit of the stage's inbox, with the subscription on which it came.
pub(crate) fn first_unit(inboxes: &[VecDeque<(SubNo, u32)>], stage: StageNo) -> (SubNo, u32)
    requires within { stage.0 < length inboxes.now }
    requires some { 0 < length (queue_at inboxes.now stage) }
    ensures { slice_get (queue_at inboxes.now stage) 0 ≡ Some result }
{
    inboxes[stage.0 as usize][0]
}

/// Takes the first unit out of the stage's inbox.
pub(crate) fn drop_first(inboxes: &mut Vec<VecDeque<(SubNo, u32)>>, stage: StageNo)
    requires within { stage.0 < length inboxes.old.items }
    ensures left { (s : Stage) → queue_at inboxes.new.items s ≡ (if stage.0 == s.0 then drop 1 (queue_at inboxes.old.items s) else queue_at inboxes.old.items s) }
    ensures len { length inboxes.new.items ≡ length inboxes.old.items }
{
    inboxes[stage.0 as usize].pop_front();
}

/// Notes that the stage gathered the message.
pub(crate) fn place_gathered(places: &mut PlaceTable, stage: StageNo, no: MsgNo)
    requires least { 1 ≤ no.0 }
    requires within { no.0 ≤ length places.old.items }
    ensures placed { (i : ℕ) → slice_get places.new.items i ≡ (if no.0 == suc i then Some (Gathered stage) else slice_get places.old.items i) }
    ensures len { length places.new.items ≡ length places.old.items }
    ensures capacity { vec_capacity places.new ≡ vec_capacity places.old }
{
    places.write(no.0 as usize - 1, Place::Gathered(stage));
}

/// Counts units as handled, where the subscription is its pair's last one.
pub(crate) fn count_handled(subs: &mut Subs, sub: SubNo, units: u32)
    requires { IfSome (row_of subs.old sub) (λ row. row.generation ≡ sub.generation → row.counts.handled + units ≤ row.counts.arrived) }
    ensures { IsChanged subs.old subs.new sub (handled_on sub.generation units) }
{
    if subs.is_last(sub) {
        subs.handled(sub, units);
    }
}

/// The message that the reply passes on.
fn message_of(reply: Option<ReplyView<'_>>) -> Option<MessageView<'_>>
    ensures { option_map message_seen result ≡ passed_in (option_map reply_seen reply.entry) }
{
    match reply {
        Some(ReplyView::Pass(message)) => Some(message),
        _ => None,
    }
}

/// Puts the message into the stage's open batch of its key, which the journal has at that place. A record has no key and
/// no flush mode.
pub(crate) fn join_open(
    batchers: &mut Vec<Batcher>,
    journal: &Journal,
    row: ContentRow,
    stage: StageNo,
    no: MsgNo,
    now: u64,
) -> Result<(), AllocError>
    requires within { stage.0 < length batchers.old.items }
    requires fits { IfSome (slice_get batchers.old.items stage.0) (λ held. IsTrue (fits held.batch_size (key_in (passed_in (reply_at journal.now.steps row.entry row.item))) held.batches)) }
    ensures joined { OnOk result ((i : ℕ) → slice_get batchers.new.items i ≡ (if stage.0 == i then option_map (with_message (passed_in (reply_at journal.now.steps row.entry row.item)) no.0 now) (slice_get batchers.old.items i) else slice_get batchers.old.items i)) }
    ensures unchanged { OnErr result ((i : ℕ) → slice_get batchers.new.items i ≡ slice_get batchers.old.items i) }
    ensures len { length batchers.new.items ≡ length batchers.old.items }
{
    let held = &mut batchers[stage.0 as usize];
    match message_of(journal.reply_at(row.entry, row.item)) {
        Some(message) => held.gather(message.key, no, message.flush, now),
        None => held.gather(&[], no, false, now),
    }
}
