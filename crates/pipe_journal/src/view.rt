//! A step as its journal lends it.

ghost use Rattle.std.specs.Prelude.{◌≡◌, IfOk, replicate};
ghost use Rattle.pipe_types.specs.declared.message.Outcome.TheVariants.{Successful};
ghost use Rattle.pipe_journal.specs.{Entries.{IsHeld, step_of}, Items.{records_seen, replies_seen}, Views.{end_seen, answer_seen, step_seen}, Readers.{records_of, replies_of}};

use crate::copies::{copy_outcomes, copy_records, copy_replies, copy_reply};
use crate::entry::Entry;
use crate::items::{Records, Replies, ReplyView};
use crate::store::Store;
use pipe_types::bytes::Bytes;
use pipe_types::message::{BatchEnd, Outcome, OutcomeList, Trigger, Why};
use pipe_types::numbers::{MsgNo, StageNo, SubNo};
use pipe_types::step::{DrainCause, LateAnswer, SourceHow, Step};
use std::alloc::{AllocError, Global};

/// How a batch ended, its outcomes lent.
#[derive(Clone, Copy)]
pub enum EndView<'a> {
    Outcomes(&'a [Outcome]),
    /// So many messages, all of them successful.
    Successes(u32),
    Crashed,
}

/// A late answer, its records or outcomes lent.
#[derive(Clone, Copy)]
pub enum AnswerView<'a> {
    Records(&'a [Bytes]),
    Quiet,
    Source(SourceHow),
    Wrote(u64, EndView<'a>),
    Nothing,
}

/// A step, its records, replies or outcomes lent. It is as small as a few numbers, and is copied with no memory.
#[derive(Clone, Copy)]
pub enum StepView<'a> {
    Ask {
        sub: SubNo,
        n: u32,
    },
    Fetch {
        stage: StageNo,
        n: u32,
    },
    Accept {
        stage: StageNo,
        records: Records<'a>,
    },
    Quiet {
        stage: StageNo,
    },
    SourceEnd {
        stage: StageNo,
        how: SourceHow,
    },
    Dispatch {
        stage: StageNo,
    },
    Take {
        stage: StageNo,
        sub: SubNo,
        k: u32,
    },
    Done {
        stage: StageNo,
        replies: Replies<'a>,
    },
    Gather {
        stage: StageNo,
        no: MsgNo,
    },
    Close {
        stage: StageNo,
        first: MsgNo,
        trigger: Trigger,
    },
    Wrote {
        stage: StageNo,
        bytes: u64,
        end: EndView<'a>,
    },
    Child {
        stage: StageNo,
        no: MsgNo,
        slot: u16,
    },
    ChildEnd {
        stage: StageNo,
        slot: u16,
        reply: ReplyView<'a>,
    },
    Kill {
        stage: StageNo,
        why: Why,
    },
    Late {
        stage: StageNo,
        slot: u16,
        incarnation: u32,
        answer: AnswerView<'a>,
    },
    Restart {
        stage: StageNo,
    },
    Tick {
        now: u64,
    },
    Drain {
        cause: DrainCause,
    },
    Halt,
    Refuse {
        line: u32,
    },
}

/// So many successes.
fn successes(alloc: Global, count: u32) -> Result<OutcomeList, AllocError>
    ensures { IfOk result (λ outcomes. outcomes ≡ replicate count Successful) }
{
    let outcomes = vec![in alloc; Outcome::Successful; count as usize]?;
    Ok(OutcomeList::from_vec(outcomes))
}

impl<'a> EndView<'a> {
    /// A view of this end of a batch.
    pub fn of(end: &'a BatchEnd) -> Self
        ensures { end_seen result ≡ end.now }
    {
        match end {
            BatchEnd::Outcomes(outcomes) => EndView::Outcomes(outcomes.as_slice()),
            BatchEnd::Crashed => EndView::Crashed,
        }
    }

    /// A copy.
    fn to_end(self, alloc: Global) -> Result<BatchEnd, AllocError>
        ensures { IfOk result (λ end. end ≡ end_seen self.entry) }
    {
        Ok(match self {
            EndView::Outcomes(outcomes) => BatchEnd::Outcomes(copy_outcomes(alloc, outcomes)?),
            EndView::Successes(count) => BatchEnd::Outcomes(successes(alloc, count)?),
            EndView::Crashed => BatchEnd::Crashed,
        })
    }
}

impl<'a> AnswerView<'a> {
    /// A view of this late answer.
    pub fn of(answer: &'a LateAnswer) -> Self
        ensures { answer_seen result ≡ answer.now }
    {
        match answer {
            LateAnswer::Records(records) => AnswerView::Records(records.as_slice()),
            LateAnswer::Quiet => AnswerView::Quiet,
            LateAnswer::Source(how) => AnswerView::Source(*how),
            LateAnswer::Wrote(bytes, end) => AnswerView::Wrote(*bytes, EndView::of(end)),
            LateAnswer::Nothing => AnswerView::Nothing,
        }
    }

    /// A copy.
    fn to_answer(self, alloc: Global) -> Result<LateAnswer, AllocError>
        ensures { IfOk result (λ answer. answer ≡ answer_seen self.entry) }
    {
        Ok(match self {
            AnswerView::Records(records) => {
                LateAnswer::Records(copy_records(alloc, Records::Listed(records))?)
            }
            AnswerView::Quiet => LateAnswer::Quiet,
            AnswerView::Source(how) => LateAnswer::Source(how),
            AnswerView::Wrote(bytes, end) => LateAnswer::Wrote(bytes, end.to_end(alloc)?),
            AnswerView::Nothing => LateAnswer::Nothing,
        })
    }
}

impl<'a> StepView<'a> {
    /// A view of this step.
    pub fn of(step: &'a Step) -> Self
        ensures { step_seen result ≡ step.now }
    {
        match step {
            Step::Ask { sub, n } => StepView::Ask { sub: *sub, n: *n },
            Step::Fetch { stage, n } => StepView::Fetch {
                stage: *stage,
                n: *n,
            },
            Step::Accept { stage, records } => StepView::Accept {
                stage: *stage,
                records: Records::Listed(records.as_slice()),
            },
            Step::Quiet { stage } => StepView::Quiet { stage: *stage },
            Step::SourceEnd { stage, how } => StepView::SourceEnd {
                stage: *stage,
                how: *how,
            },
            Step::Dispatch { stage } => StepView::Dispatch { stage: *stage },
            Step::Take { stage, sub, k } => StepView::Take {
                stage: *stage,
                sub: *sub,
                k: *k,
            },
            Step::Done { stage, replies } => StepView::Done {
                stage: *stage,
                replies: Replies::Listed(replies.as_slice()),
            },
            Step::Gather { stage, no } => StepView::Gather {
                stage: *stage,
                no: *no,
            },
            Step::Close {
                stage,
                first,
                trigger,
            } => StepView::Close {
                stage: *stage,
                first: *first,
                trigger: *trigger,
            },
            Step::Wrote { stage, bytes, end } => StepView::Wrote {
                stage: *stage,
                bytes: *bytes,
                end: EndView::of(end),
            },
            Step::Child { stage, no, slot } => StepView::Child {
                stage: *stage,
                no: *no,
                slot: *slot,
            },
            Step::ChildEnd { stage, slot, reply } => StepView::ChildEnd {
                stage: *stage,
                slot: *slot,
                reply: ReplyView::of(reply),
            },
            Step::Kill { stage, why } => StepView::Kill {
                stage: *stage,
                why: *why,
            },
            Step::Late {
                stage,
                slot,
                incarnation,
                answer,
            } => StepView::Late {
                stage: *stage,
                slot: *slot,
                incarnation: *incarnation,
                answer: AnswerView::of(answer),
            },
            Step::Restart { stage } => StepView::Restart { stage: *stage },
            Step::Tick { now } => StepView::Tick { now: *now },
            Step::Drain { cause } => StepView::Drain { cause: *cause },
            Step::Halt => StepView::Halt,
            Step::Refuse { line } => StepView::Refuse { line: *line },
        }
    }

    /// A copy of the step, with its lists.
    pub fn to_step(self, alloc: Global) -> Result<Step, AllocError>
        ensures { IfOk result (λ step. step ≡ step_seen self.entry) }
    {
        Ok(match self {
            StepView::Ask { sub, n } => Step::Ask { sub, n },
            StepView::Fetch { stage, n } => Step::Fetch { stage, n },
            StepView::Accept { stage, records } => {
                let records = copy_records(alloc, records)?;
                Step::Accept { stage, records }
            }
            StepView::Quiet { stage } => Step::Quiet { stage },
            StepView::SourceEnd { stage, how } => Step::SourceEnd { stage, how },
            StepView::Dispatch { stage } => Step::Dispatch { stage },
            StepView::Take { stage, sub, k } => Step::Take { stage, sub, k },
            StepView::Done { stage, replies } => {
                let replies = copy_replies(alloc, replies)?;
                Step::Done { stage, replies }
            }
            StepView::Gather { stage, no } => Step::Gather { stage, no },
            StepView::Close {
                stage,
                first,
                trigger,
            } => Step::Close {
                stage,
                first,
                trigger,
            },
            StepView::Wrote { stage, bytes, end } => {
                let end = end.to_end(alloc)?;
                Step::Wrote { stage, bytes, end }
            }
            StepView::Child { stage, no, slot } => Step::Child { stage, no, slot },
            StepView::ChildEnd { stage, slot, reply } => {
                let reply = copy_reply(alloc, reply)?;
                Step::ChildEnd { stage, slot, reply }
            }
            StepView::Kill { stage, why } => Step::Kill { stage, why },
            StepView::Late {
                stage,
                slot,
                incarnation,
                answer,
            } => {
                let answer = answer.to_answer(alloc)?;
                Step::Late {
                    stage,
                    slot,
                    incarnation,
                    answer,
                }
            }
            StepView::Restart { stage } => Step::Restart { stage },
            StepView::Tick { now } => Step::Tick { now },
            StepView::Drain { cause } => Step::Drain { cause },
            StepView::Halt => Step::Halt,
            StepView::Refuse { line } => Step::Refuse { line },
        })
    }

    /// The records that the step brings in, and none where it is no Accept and no late answer with records.
    pub fn records(self) -> Records<'a>
        ensures { records_seen result ≡ records_of (step_seen self.entry) }
    {
        match self {
            StepView::Accept { records, .. } => records,
            StepView::Late {
                answer: AnswerView::Records(records),
                ..
            } => Records::Listed(records),
            _ => Records::Listed(&[]),
        }
    }

    /// The replies of a Done, the one reply of a ChildEnd, and none of another step.
    pub fn replies(self) -> Replies<'a>
        ensures { replies_seen result ≡ replies_of (step_seen self.entry) }
    {
        match self {
            StepView::Done { replies, .. } => replies,
            StepView::ChildEnd { reply, .. } => Replies::One(reply),
            _ => Replies::Listed(&[]),
        }
    }
}

/// The step of an entry, what it names lent by the store.
#[inline(always)]
pub(crate) fn view_entry(store: &Store, entry: Entry) -> StepView<'_>
    requires { IsHeld store.now entry }
    ensures { step_seen result ≡ step_of store.now entry }
{
    match entry {
        Entry::Ask { sub, n } => StepView::Ask { sub, n },
        Entry::Fetch { stage, n } => StepView::Fetch { stage, n },
        Entry::Accept {
            stage,
            first,
            count,
        } => StepView::Accept {
            stage,
            records: Records::Packed(&store.kept, first, count),
        },
        Entry::Quiet { stage } => StepView::Quiet { stage },
        Entry::SourceEnd { stage, how } => StepView::SourceEnd { stage, how },
        Entry::Dispatch { stage } => StepView::Dispatch { stage },
        Entry::Take { stage, sub, k } => StepView::Take { stage, sub, k },
        Entry::Done {
            stage,
            first,
            count,
        } => StepView::Done {
            stage,
            replies: Replies::Packed(&store.kept, first, count),
        },
        Entry::Gather { stage, no } => StepView::Gather { stage, no },
        Entry::Close {
            stage,
            first,
            trigger,
        } => StepView::Close {
            stage,
            first,
            trigger,
        },
        Entry::WroteAll {
            stage,
            count,
            bytes,
        } => StepView::Wrote {
            stage,
            bytes,
            end: EndView::Successes(count),
        },
        Entry::WroteNone { stage, bytes } => StepView::Wrote {
            stage,
            bytes,
            end: EndView::Crashed,
        },
        Entry::Child { stage, no, slot } => StepView::Child { stage, no, slot },
        Entry::ChildEnd { stage, slot, reply } => StepView::ChildEnd {
            stage,
            slot,
            reply: store.reply(reply),
        },
        Entry::Kill { stage, why } => StepView::Kill { stage, why },
        Entry::Restart { stage } => StepView::Restart { stage },
        Entry::Tick { now } => StepView::Tick { now },
        Entry::Drain { cause } => StepView::Drain { cause },
        Entry::Halt => StepView::Halt,
        Entry::Refuse { line } => StepView::Refuse { line },
        Entry::Whole(key) => StepView::of(store.step(key)),
    }
}

/// The records that the step of an entry brings in, lent by the store. No view of the step is made.
#[inline(always)]
pub(crate) fn records_in(store: &Store, entry: Entry) -> Records<'_>
    requires { IsHeld store.now entry }
    ensures { records_seen result ≡ records_of (step_of store.now entry) }
{
    match entry {
        Entry::Accept { first, count, .. } => Records::Packed(&store.kept, first, count),
        Entry::Whole(key) => StepView::of(store.step(key)).records(),
        _ => Records::Listed(&[]),
    }
}

/// The replies of the step of an entry, lent by the store. No view of the step is made.
#[inline(always)]
pub(crate) fn replies_in(store: &Store, entry: Entry) -> Replies<'_>
    requires { IsHeld store.now entry }
    ensures { replies_seen result ≡ replies_of (step_of store.now entry) }
{
    match entry {
        Entry::Done { first, count, .. } => Replies::Packed(&store.kept, first, count),
        Entry::ChildEnd { reply, .. } => Replies::One(store.reply(reply)),
        Entry::Whole(key) => StepView::of(store.step(key)).replies(),
        _ => Replies::Listed(&[]),
    }
}
