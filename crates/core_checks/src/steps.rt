//! Steps, as words: `ask=CONSUMER:PRODUCER:GENERATION:N`, `fetch=STAGE:N`, `accept=STAGE:LINE`, `dispatch=STAGE`,
//! `take=CONSUMER:PRODUCER:GENERATION:N`, `pass=STAGE:MESSAGE:PRODUCER:LINE`, `end=STAGE` of a source, `drain`,
//! `kill=STAGE:WHY`, `late=STAGE:SLOT:INCARNATION` with no answer, `restart=STAGE`, `tick=TIME`, `halt`.

use super::case::{item, number, small, stage};
use pipe_types::bytes::{Bytes, BytesList};
use pipe_types::message::{Message, Reply, ReplyList, Why};
use pipe_types::numbers::{MsgNo, SubNo};
use pipe_types::step::{DrainCause, LateAnswer, SourceHow, Step};
use std::alloc::{AllocError, Global};

/// The step that the words name, or none.
pub fn step_of(alloc: Global, verb: &str, rest: &str) -> Result<Option<Step>, AllocError> {
    match verb {
        "accept" => Ok(Some(accept(alloc, rest)?)),
        "pass" => Ok(Some(pass(alloc, rest)?)),
        "ask" => Ok(Some(ask(rest))),
        "take" => Ok(Some(take(rest))),
        "late" => Ok(Some(late(rest))),
        _ => Ok(short_step(verb, rest)),
    }
}

fn short_step(verb: &str, rest: &str) -> Option<Step> {
    let stage = stage(item(rest, 0));
    match verb {
        "fetch" => Some(Step::Fetch {
            stage,
            n: count(item(rest, 1)),
        }),
        "dispatch" => Some(Step::Dispatch { stage }),
        "end" => Some(Step::SourceEnd {
            stage,
            how: SourceHow::End,
        }),
        "kill" => Some(Step::Kill {
            stage,
            why: why_of(item(rest, 1)),
        }),
        "restart" => Some(Step::Restart { stage }),
        _ => still_step(verb, rest),
    }
}

/// A step of no stage.
fn still_step(verb: &str, rest: &str) -> Option<Step> {
    match verb {
        "tick" => Some(Step::Tick { now: number(rest) }),
        "drain" => Some(Step::Drain {
            cause: DrainCause::Sources,
        }),
        "halt" => Some(Step::Halt),
        _ => None,
    }
}

fn count(text: &str) -> u32 {
    u32::from(small(text))
}

fn why_of(word: &str) -> Why {
    match word {
        "stop" => Why::Stop,
        "crash" => Why::Crash,
        _ => Why::Kill,
    }
}

fn sub_of(rest: &str) -> SubNo {
    SubNo {
        consumer: stage(item(rest, 0)),
        producer: stage(item(rest, 1)),
        generation: count(item(rest, 2)),
    }
}

fn ask(rest: &str) -> Step {
    Step::Ask {
        sub: sub_of(rest),
        n: count(item(rest, 3)),
    }
}

fn take(rest: &str) -> Step {
    Step::Take {
        stage: stage(item(rest, 0)),
        sub: sub_of(rest),
        k: count(item(rest, 3)),
    }
}

fn late(rest: &str) -> Step {
    Step::Late {
        stage: stage(item(rest, 0)),
        slot: small(item(rest, 1)),
        incarnation: count(item(rest, 2)),
        answer: LateAnswer::Nothing,
    }
}

fn accept(alloc: Global, rest: &str) -> Result<Step, AllocError> {
    let records = BytesList::from_vec(vec![in alloc; bytes_of(alloc, item(rest, 1))?]?);
    Ok(Step::Accept {
        stage: stage(item(rest, 0)),
        records,
    })
}

fn pass(alloc: Global, rest: &str) -> Result<Step, AllocError> {
    let message = message(alloc, rest)?;
    let replies = ReplyList::from_vec(vec![in alloc; Reply::Pass(message)]?);
    Ok(Step::Done {
        stage: stage(item(rest, 0)),
        replies,
    })
}

fn message(alloc: Global, rest: &str) -> Result<Message, AllocError> {
    let payload = bytes_of(alloc, item(rest, 3))?;
    Ok(Message {
        no: MsgNo(count(item(rest, 1))),
        producer: stage(item(rest, 2)),
        payload,
        batcher: 0,
        key: Bytes::from_vec(Vec::new(alloc)),
        flush: false,
    })
}

fn bytes_of(alloc: Global, text: &str) -> Result<Bytes, AllocError> {
    Ok(Bytes::from_vec(Vec::from_slice(alloc, text.as_bytes())?))
}
