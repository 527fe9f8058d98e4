//! The answers that handlers give by hand.

ghost use Rattle.std.specs.Prelude.{◌≡◌, IfOk};
ghost use Rattle.stage_bodies.specs.Posts.{step_of};

use pipe_types::bytes::{Bytes, BytesList};
use pipe_types::message::{BatchEnd, Message, Outcome as Settled, OutcomeList, Reply, ReplyList};
use pipe_types::numbers::{Post, StageNo};
use pipe_types::step::{LateAnswer, SourceHow, Step};
use pipe_types::topology::Topology;
use stage_bodies::{Outcome, Work};
use std::alloc::{AllocError, Global};

/// What the work comes to, where a fetch brings the text: a record for each letter, `-` for nothing yet, and no text for the
/// end of the source. Each message passes, where batchers follow with its payload as its key, and each batch is written whole.
pub fn outcome_of(
    alloc: Global,
    work: Work,
    keyed: bool,
    text: &str,
) -> Result<Outcome, AllocError> {
    match work {
        Work::Fetch(_) => fetched(alloc, text),
        Work::Chunk(messages) => {
            let replies = replies_to(alloc, messages.as_slice(), keyed)?;
            Ok(Outcome::Replies(replies))
        }
        Work::Batch(batch) => written(alloc, batch.messages.as_slice()),
        Work::Child(message) => Ok(Outcome::Reply(Reply::Pass(message))),
    }
}

fn fetched(alloc: Global, text: &str) -> Result<Outcome, AllocError> {
    if text == "" {
        Ok(Outcome::Ended(SourceHow::End))
    } else if text == "-" {
        Ok(Outcome::NotYet)
    } else {
        Ok(Outcome::Records(records_in(alloc, text)?))
    }
}

/// A record for each letter.
fn records_in(alloc: Global, text: &str) -> Result<BytesList, AllocError> {
    let mut records = Vec::new(alloc);
    for byte in text.as_bytes() {
        records.push(Bytes::from_vec(vec![in alloc; *byte]?))?;
    }
    Ok(BytesList::from_vec(records))
}

fn replies_to(alloc: Global, messages: &[Message], keyed: bool) -> Result<ReplyList, AllocError> {
    let mut replies = Vec::new(alloc);
    for message in messages {
        replies.push(reply_to(message, keyed)?)?;
    }
    Ok(ReplyList::from_vec(replies))
}

fn reply_to(message: &Message, keyed: bool) -> Result<Reply, AllocError> {
    let mut copy = message.clone()?;
    if keyed {
        copy.key = message.payload.clone()?;
    }
    Ok(Reply::Pass(copy))
}

fn written(alloc: Global, messages: &[Message]) -> Result<Outcome, AllocError> {
    let outcomes = successes(alloc, messages)?;
    Ok(Outcome::Wrote(bytes_of(messages), BatchEnd::Outcomes(outcomes)))
}

/// How many bytes the lines of the messages have.
fn bytes_of(messages: &[Message]) -> u64 {
    let mut bytes: u64 = 0;
    for message in messages {
        bytes = bytes
            .saturating_add(message.payload.len() as u64)
            .saturating_add(1);
    }
    bytes
}

fn successes(alloc: Global, messages: &[Message]) -> Result<OutcomeList, AllocError> {
    let mut outcomes = Vec::new(alloc);
    for _ in messages {
        outcomes.push(Settled::Successful)?;
    }
    Ok(OutcomeList::from_vec(outcomes))
}

/// Whether batchers follow the stage.
pub fn is_keyed(topology: &Topology, stage: StageNo) -> bool {
    match topology.stages.find(stage) {
        Some(spec) => 0 < spec.batchers,
        None => false,
    }
}

/// The step that records the answer of a live post.
pub fn step_of(post: Post, outcome: &Outcome) -> Result<Step, AllocError>
    ensures { IfOk result (λ step. step ≡ step_of post outcome.now) }
{
    let Post { stage, slot } = post;
    match outcome {
        Outcome::Records(records) => {
            let records = records.clone()?;
            Ok(Step::Accept { stage, records })
        }
        Outcome::NotYet => Ok(Step::Quiet { stage }),
        Outcome::Ended(how) => Ok(Step::SourceEnd { stage, how: *how }),
        Outcome::Replies(replies) => {
            let replies = replies.clone()?;
            Ok(Step::Done { stage, replies })
        }
        Outcome::Wrote(bytes, end) => {
            let end = end.clone()?;
            Ok(Step::Wrote {
                stage,
                bytes: *bytes,
                end,
            })
        }
        Outcome::Reply(reply) => {
            let reply = reply.clone()?;
            Ok(Step::ChildEnd { stage, slot, reply })
        }
    }
}

/// What is late of an answer: what a source gave, and what a sink got.
pub fn late_of(outcome: Outcome) -> LateAnswer {
    match outcome {
        Outcome::Records(records) => LateAnswer::Records(records),
        Outcome::NotYet => LateAnswer::Quiet,
        Outcome::Ended(how) => LateAnswer::Source(how),
        Outcome::Wrote(bytes, end) => LateAnswer::Wrote(bytes, end),
        Outcome::Replies(_) | Outcome::Reply(_) => LateAnswer::Nothing,
    }
}
