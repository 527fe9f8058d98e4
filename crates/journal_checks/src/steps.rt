//! Steps, as lines: those of a journal's text, but that payloads, keys and reasons stand as they are and not as digits. The number
//! of a passed message is 3, and its producer 1. A kill for a cancelled subscription is `kill STAGE cancel PRODUCER GENERATION`.

use super::words::{bytes_of, halves, item, long, number, short};
use pipe_types::bytes::BytesList;
use pipe_types::message::{
    BatchEnd, Message, Outcome, OutcomeList, Reply, ReplyList, Trigger, Why,
};
use pipe_types::numbers::{MsgNo, StageNo, SubNo};
use pipe_types::reason::Reason;
use pipe_types::step::{DrainCause, LateAnswer, SourceHow, Step};
use std::alloc::{AllocError, Global};

/// The step of the line, or none where its word names none.
pub fn step_of(alloc: Global, word: &str, rest: &str) -> Result<Option<Step>, AllocError> {
    let stage = StageNo(short(rest, 0));
    let (_, behind) = halves(rest);
    match word {
        "accept" => Ok(Some(Step::Accept {
            stage,
            records: records_of(alloc, behind)?,
        })),
        "done" => Ok(Some(Step::Done {
            stage,
            replies: replies_of(alloc, behind)?,
        })),
        "wrote" => Ok(Some(Step::Wrote {
            stage,
            bytes: long(rest, 1),
            end: end_of(alloc, item(rest, ' ', 2))?,
        })),
        "childend" => Ok(Some(Step::ChildEnd {
            stage,
            slot: short(rest, 1),
            reply: reply_of(alloc, item(rest, ' ', 2))?,
        })),
        "late" => Ok(Some(Step::Late {
            stage,
            slot: short(rest, 1),
            incarnation: number(rest, 2),
            answer: late_of(alloc, rest)?,
        })),
        _ => Ok(plain_of(word, rest)),
    }
}

/// A step that keeps no list.
fn plain_of(word: &str, rest: &str) -> Option<Step> {
    let stage = StageNo(short(rest, 0));
    match word {
        "fetch" => Some(Step::Fetch {
            stage,
            n: number(rest, 1),
        }),
        "quiet" => Some(Step::Quiet { stage }),
        "source" => Some(Step::SourceEnd {
            stage,
            how: how_of(item(rest, ' ', 1)),
        }),
        "dispatch" => Some(Step::Dispatch { stage }),
        "restart" => Some(Step::Restart { stage }),
        "tick" => Some(Step::Tick { now: long(rest, 0) }),
        "drain" => Some(Step::Drain {
            cause: cause_of(rest),
        }),
        "halt" => Some(Step::Halt),
        "refuse" => Some(Step::Refuse {
            line: number(rest, 0),
        }),
        _ => work_of(word, rest),
    }
}

/// A step of messages or of a life.
fn work_of(word: &str, rest: &str) -> Option<Step> {
    let stage = StageNo(short(rest, 0));
    let no = MsgNo(number(rest, 1));
    match word {
        "ask" => Some(Step::Ask {
            sub: sub_of(stage, short(rest, 1), number(rest, 2)),
            n: number(rest, 3),
        }),
        "take" => Some(Step::Take {
            stage,
            sub: sub_of(stage, short(rest, 1), number(rest, 2)),
            k: number(rest, 3),
        }),
        "gather" => Some(Step::Gather { stage, no }),
        "close" => Some(Step::Close {
            stage,
            first: no,
            trigger: trigger_of(item(rest, ' ', 2)),
        }),
        "child" => Some(Step::Child {
            stage,
            no,
            slot: short(rest, 2),
        }),
        "kill" => Some(Step::Kill {
            stage,
            why: why_of(stage, rest),
        }),
        _ => None,
    }
}

fn sub_of(consumer: StageNo, producer: u16, generation: u32) -> SubNo {
    SubNo {
        consumer,
        producer: StageNo(producer),
        generation,
    }
}

fn how_of(word: &str) -> SourceHow {
    match word {
        "end" => SourceHow::End,
        "fault" => SourceHow::Fault,
        "toolong" => SourceHow::TooLong,
        _ => SourceHow::Limit,
    }
}

fn cause_of(word: &str) -> DrainCause {
    match word {
        "sources" => DrainCause::Sources,
        "control" => DrainCause::Control,
        "limit" => DrainCause::Limit,
        _ => DrainCause::Idle,
    }
}

fn trigger_of(word: &str) -> Trigger {
    match word {
        "size" => Trigger::Size,
        "flush" => Trigger::Flush,
        _ => Trigger::Timeout,
    }
}

fn why_of(stage: StageNo, rest: &str) -> Why {
    match item(rest, ' ', 1) {
        "crash" => Why::Crash,
        "kill" => Why::Kill,
        "stop" => Why::Stop,
        "cancel" => Why::Cancelled(sub_of(stage, short(rest, 2), number(rest, 3))),
        _ => Why::Limit,
    }
}

fn records_of(alloc: Global, text: &str) -> Result<BytesList, AllocError> {
    let mut records = Vec::new(alloc);
    for word in text.split(',') {
        records.push(bytes_of(alloc, word)?)?;
    }
    Ok(BytesList::from_vec(records))
}

fn replies_of(alloc: Global, text: &str) -> Result<ReplyList, AllocError> {
    let mut replies = Vec::new(alloc);
    for word in text.split(',') {
        replies.push(reply_of(alloc, word)?)?;
    }
    Ok(ReplyList::from_vec(replies))
}

fn reply_of(alloc: Global, word: &str) -> Result<Reply, AllocError> {
    match (item(word, ':', 0), reason_of(item(word, ':', 1))) {
        ("p", _) => Ok(Reply::Pass(message_of(alloc, word)?)),
        ("f", Some(why)) => Ok(Reply::Failed(why)),
        ("r", Some(why)) => Ok(Reply::Raised(why)),
        _ => Ok(Reply::Crashed),
    }
}

fn reason_of(word: &str) -> Option<Reason> {
    Reason::new(word.as_bytes())
}

/// The message of `p:BATCHER:FLUSH:KEY:PAYLOAD`.
fn message_of(alloc: Global, word: &str) -> Result<Message, AllocError> {
    Ok(Message {
        no: MsgNo(3),
        producer: StageNo(1),
        payload: bytes_of(alloc, item(word, ':', 4))?,
        batcher: item(word, ':', 1).parse::<u16>().unwrap_or(0),
        key: bytes_of(alloc, item(word, ':', 3))?,
        flush: item(word, ':', 2) == "1",
    })
}

/// A list of `s` and `f:REASON`, or `c` alone.
fn end_of(alloc: Global, text: &str) -> Result<BatchEnd, AllocError> {
    if text == "c" {
        return Ok(BatchEnd::Crashed);
    }
    let mut outcomes = Vec::new(alloc);
    for word in text.split(',') {
        outcomes.push(outcome_of(word))?;
    }
    Ok(BatchEnd::Outcomes(OutcomeList::from_vec(outcomes)))
}

fn outcome_of(word: &str) -> Outcome {
    match reason_of(item(word, ':', 1)) {
        Some(why) => Outcome::Failed(why),
        None => Outcome::Successful,
    }
}

fn late_of(alloc: Global, rest: &str) -> Result<LateAnswer, AllocError> {
    let more = item(rest, ' ', 4);
    match item(rest, ' ', 3) {
        "records" => Ok(LateAnswer::Records(records_of(alloc, more)?)),
        "quiet" => Ok(LateAnswer::Quiet),
        "source" => Ok(LateAnswer::Source(how_of(more))),
        "wrote" => {
            let end = end_of(alloc, item(rest, ' ', 5))?;
            Ok(LateAnswer::Wrote(long(rest, 4), end))
        }
        _ => Ok(LateAnswer::Nothing),
    }
}
