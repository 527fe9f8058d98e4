//! What a journal keeps of a step: its kind and its numbers, and where the store has the rest.

ghost use Rattle.std.specs.{Prelude.{◌≡◌, ◌≤◌, ◌+◌, length, IfSome, replicate}, List.{list_all}};
ghost use Rattle.pipe_types.specs.{declared.step.Step.{Step as StepOf}, declared.message.Outcome.TheVariants.{Successful}};
ghost use Rattle.pipe_journal.specs.Entries.{Keeps, spare_of, IsHeld, step_of, is_success};

use crate::store::Store;
use pipe_types::bytes::BytesList;
use pipe_types::message::{BatchEnd, Outcome, Reply, ReplyList, Trigger, Why};
use pipe_types::numbers::{MsgNo, StageNo, SubNo};
use pipe_types::step::{DrainCause, SourceHow, Step};

/// A step, with the place of its list. It takes 16 bytes.
#[derive(Clone, Copy)]
pub(crate) enum Entry {
    Ask {
        sub: SubNo,
        n: u32,
    },
    Fetch {
        stage: StageNo,
        n: u32,
    },
    Accept {
        stage: StageNo,
        first: u32,
        count: u32,
    },
    Quiet {
        stage: StageNo,
    },
    SourceEnd {
        stage: StageNo,
        how: SourceHow,
    },
    Dispatch {
        stage: StageNo,
    },
    Take {
        stage: StageNo,
        sub: SubNo,
        k: u32,
    },
    Done {
        stage: StageNo,
        first: u32,
        count: u32,
    },
    Gather {
        stage: StageNo,
        no: MsgNo,
    },
    Close {
        stage: StageNo,
        first: MsgNo,
        trigger: Trigger,
    },
    // The end of a batch of so many messages, all of them successful.
    WroteAll {
        stage: StageNo,
        count: u32,
        bytes: u64,
    },
    // The end of a batch whose handler crashed.
    WroteNone {
        stage: StageNo,
        bytes: u64,
    },
    Child {
        stage: StageNo,
        no: MsgNo,
        slot: u16,
    },
    ChildEnd {
        stage: StageNo,
        slot: u16,
        reply: u32,
    },
    Kill {
        stage: StageNo,
        why: Why,
    },
    Restart {
        stage: StageNo,
    },
    Tick {
        now: u64,
    },
    Drain {
        cause: DrainCause,
    },
    Halt,
    Refuse {
        line: u32,
    },
    // A step that is not packed.
    Whole(usize),
}

/// Whether all the outcomes are successes.
fn are_successes(outcomes: &[Outcome]) -> bool
    ensures { result ≡ list_all is_success outcomes.now }
{
    outcomes
        .iter()
        .all(|outcome| matches!(outcome, Outcome::Successful))
}

/// How many the outcomes are, where all are successes.
fn successes(outcomes: &[Outcome]) -> Option<u32>
    ensures { IfSome result (λ count. outcomes.now ≡ replicate count Successful) }
{
    if are_successes(outcomes) {
        half(outcomes.len())
    } else {
        None
    }
}

/// The count in half its width, where it fits.
fn half(count: usize) -> Option<u32>
    ensures { IfSome result (λ n. n ≡ count) }
{
    if count > u32::MAX as usize {
        None
    } else {
        Some(count as u32)
    }
}

/// The entry of a step that moves into the store.
#[inline(never)]
fn pack_whole(store: &mut Store, step: Step) -> Entry
    requires room { 1 ≤ spare_of store.old }
    ensures step { step_of store.new result ≡ step }
    ensures held { IsHeld store.new result }
    ensures keeps { Keeps store.old store.new }
    ensures spare { spare_of store.old ≤ spare_of store.new + 1 }
{
    Entry::Whole(store.keep(step))
}

/// The entry of an Accept.
#[inline(never)]
fn pack_accept(store: &mut Store, stage: StageNo, records: BytesList) -> Entry
    requires room { 1 ≤ spare_of store.old }
    ensures step { step_of store.new result ≡ StepOf.Accept stage records }
    ensures held { IsHeld store.new result }
    ensures keeps { Keeps store.old store.new }
    ensures spare { spare_of store.old ≤ spare_of store.new + 1 }
{
    match store.kept.add_records(records.as_slice()) {
        Ok((first, count)) => Entry::Accept {
            stage,
            first,
            count,
        },
        Err(_) => pack_whole(store, Step::Accept { stage, records }),
    }
}

/// The entry of a Done.
#[inline(never)]
fn pack_done(store: &mut Store, stage: StageNo, replies: ReplyList) -> Entry
    requires room { 1 ≤ spare_of store.old }
    ensures step { step_of store.new result ≡ StepOf.Done stage replies }
    ensures held { IsHeld store.new result }
    ensures keeps { Keeps store.old store.new }
    ensures spare { spare_of store.old ≤ spare_of store.new + 1 }
{
    match store.kept.add_replies(replies.as_slice()) {
        Ok((first, count)) => Entry::Done {
            stage,
            first,
            count,
        },
        Err(_) => pack_whole(store, Step::Done { stage, replies }),
    }
}

/// The entry of a ChildEnd.
#[inline(never)]
fn pack_child_end(store: &mut Store, stage: StageNo, slot: u16, reply: Reply) -> Entry
    requires room { 1 ≤ spare_of store.old }
    ensures step { step_of store.new result ≡ StepOf.ChildEnd stage slot reply }
    ensures held { IsHeld store.new result }
    ensures keeps { Keeps store.old store.new }
    ensures spare { spare_of store.old ≤ spare_of store.new + 1 }
{
    match store.kept.add_reply(&reply) {
        Ok(at) => Entry::ChildEnd {
            stage,
            slot,
            reply: at,
        },
        Err(_) => pack_whole(store, Step::ChildEnd { stage, slot, reply }),
    }
}

/// The entry of a Wrote.
#[inline(never)]
fn pack_wrote(store: &mut Store, stage: StageNo, bytes: u64, end: BatchEnd) -> Entry
    requires room { 1 ≤ spare_of store.old }
    ensures step { step_of store.new result ≡ StepOf.Wrote stage bytes end }
    ensures held { IsHeld store.new result }
    ensures keeps { Keeps store.old store.new }
    ensures spare { spare_of store.old ≤ spare_of store.new + 1 }
{
    match end {
        BatchEnd::Crashed => Entry::WroteNone { stage, bytes },
        BatchEnd::Outcomes(outcomes) => match successes(outcomes.as_slice()) {
            Some(count) => Entry::WroteAll {
                stage,
                count,
                bytes,
            },
            None => pack_whole(
                store,
                Step::Wrote {
                    stage,
                    bytes,
                    end: BatchEnd::Outcomes(outcomes),
                },
            ),
        },
    }
}

/// The entry of a step, whose list moves into the store.
#[inline(always)]
pub(crate) fn pack(store: &mut Store, step: Step) -> Entry
    requires room { 1 ≤ spare_of store.old }
    ensures step { step_of store.new result ≡ step }
    ensures held { IsHeld store.new result }
    ensures keeps { Keeps store.old store.new }
    ensures spare { spare_of store.old ≤ spare_of store.new + 1 }
{
    match step {
        Step::Ask { sub, n } => Entry::Ask { sub, n },
        Step::Fetch { stage, n } => Entry::Fetch { stage, n },
        Step::Accept { stage, records } => pack_accept(store, stage, records),
        Step::Quiet { stage } => Entry::Quiet { stage },
        Step::SourceEnd { stage, how } => Entry::SourceEnd { stage, how },
        Step::Dispatch { stage } => Entry::Dispatch { stage },
        Step::Take { stage, sub, k } => Entry::Take { stage, sub, k },
        Step::Done { stage, replies } => pack_done(store, stage, replies),
        Step::Gather { stage, no } => Entry::Gather { stage, no },
        Step::Close {
            stage,
            first,
            trigger,
        } => Entry::Close {
            stage,
            first,
            trigger,
        },
        Step::Wrote { stage, bytes, end } => pack_wrote(store, stage, bytes, end),
        Step::Child { stage, no, slot } => Entry::Child { stage, no, slot },
        Step::ChildEnd { stage, slot, reply } => pack_child_end(store, stage, slot, reply),
        Step::Kill { stage, why } => Entry::Kill { stage, why },
        Step::Late {
            stage,
            slot,
            incarnation,
            answer,
        } => pack_whole(
            store,
            Step::Late {
                stage,
                slot,
                incarnation,
                answer,
            },
        ),
        Step::Restart { stage } => Entry::Restart { stage },
        Step::Tick { now } => Entry::Tick { now },
        Step::Drain { cause } => Entry::Drain { cause },
        Step::Halt => Entry::Halt,
        Step::Refuse { line } => Entry::Refuse { line },
    }
}
