//! The words behind the first, by kind of line.

ghost use Rattle.std.specs.Prelude.{◌≡◌};
ghost use Rattle.pipe_types.specs.{Numbers.{stage as stage_no, subscription, post as post_of, message_no}, declared.step.Step.TheVariants.{Quiet, Dispatch, Restart}};
ghost use Rattle.line_reading.specs.Reading.{Gives, texts_of};
ghost use Rattle.line_reading.specs.Lines.{ask_in, fetch_in, accept_in, stage_alone, of_stage, source_in, take_in, done_in, gather_in, close_in, wrote_in, child_in, child_end_in, kill_in, tick_in, drain_in, halt_in, refuse_in};

use crate::fault::{Fault, ReadError};
use crate::fields::{long, number32, short, stage};
use crate::items::{ends, records};
use crate::jobs::JobMessages;
use crate::replies::{replies, reply};
use crate::words::{cause, how, trigger, why};
use pipe_types::numbers::{MsgNo, Post, StageNo, SubNo};
use pipe_types::step::Step;
use std::alloc::Global;

/// `ask CONSUMER PRODUCER GENERATION N`
#[tactic(auto, using(crate::proofs::Loops::fails_bind))]
pub(crate) fn ask(words: &[&[u8]]) -> Result<Step, ReadError>
    ensures { Gives (λ s. s) result (ask_in (texts_of words.now)) }
{
    match words {
        [consumer, producer, generation, n] => {
            let consumer = stage(consumer)?;
            let producer = stage(producer)?;
            let generation = number32(generation)?;
            let n = number32(n)?;
            Ok(Step::Ask {
                sub: SubNo {
                    consumer,
                    producer,
                    generation,
                },
                n,
            })
        }
        _ => Err(ReadError::Fault(Fault::Word)),
    }
}

/// `fetch STAGE N`
#[tactic(auto, using(crate::proofs::Loops::fails_bind))]
pub(crate) fn fetch(words: &[&[u8]]) -> Result<Step, ReadError>
    ensures { Gives (λ s. s) result (fetch_in (texts_of words.now)) }
{
    match words {
        [at, n] => {
            let stage = stage(at)?;
            let n = number32(n)?;
            Ok(Step::Fetch { stage, n })
        }
        _ => Err(ReadError::Fault(Fault::Word)),
    }
}

/// `accept STAGE BYTES,BYTES`
#[tactic(auto, using(crate::proofs::Loops::fails_bind))]
pub(crate) fn accept(alloc: Global, words: &[&[u8]]) -> Result<Step, ReadError>
    ensures { Gives (λ s. s) result (accept_in (texts_of words.now)) }
{
    match words {
        [at, texts] => {
            let stage = stage(at)?;
            let records = records(alloc, texts)?;
            Ok(Step::Accept { stage, records })
        }
        _ => Err(ReadError::Fault(Fault::Word)),
    }
}

/// `STAGE`, of the lines that say no more.
fn only_stage(words: &[&[u8]]) -> Result<StageNo, ReadError>
    ensures { Gives (λ s. s) result (stage_alone (texts_of words.now)) }
{
    match words {
        [at] => stage(at),
        _ => Err(ReadError::Fault(Fault::Word)),
    }
}

/// `quiet STAGE`
#[tactic(auto, using(crate::proofs::Loops::fails_bind))]
pub(crate) fn quiet(words: &[&[u8]]) -> Result<Step, ReadError>
    ensures { Gives (λ s. s) result (of_stage Quiet (texts_of words.now)) }
{
    let stage = only_stage(words)?;
    Ok(Step::Quiet { stage })
}

/// `dispatch STAGE`
#[tactic(auto, using(crate::proofs::Loops::fails_bind))]
pub(crate) fn dispatch(words: &[&[u8]]) -> Result<Step, ReadError>
    ensures { Gives (λ s. s) result (of_stage Dispatch (texts_of words.now)) }
{
    let stage = only_stage(words)?;
    Ok(Step::Dispatch { stage })
}

/// `restart STAGE`
#[tactic(auto, using(crate::proofs::Loops::fails_bind))]
pub(crate) fn restart(words: &[&[u8]]) -> Result<Step, ReadError>
    ensures { Gives (λ s. s) result (of_stage Restart (texts_of words.now)) }
{
    let stage = only_stage(words)?;
    Ok(Step::Restart { stage })
}

/// `source STAGE HOW`
#[tactic(auto, using(crate::proofs::Loops::fails_bind))]
pub(crate) fn source_end(words: &[&[u8]]) -> Result<Step, ReadError>
    ensures { Gives (λ s. s) result (source_in (texts_of words.now)) }
{
    match words {
        [at, word] => {
            let how = how(word)?;
            let stage = stage(at)?;
            Ok(Step::SourceEnd { stage, how })
        }
        _ => Err(ReadError::Fault(Fault::Word)),
    }
}

/// `take STAGE PRODUCER GENERATION K`
#[tactic(auto, using(crate::proofs::Loops::fails_bind))]
pub(crate) fn take(words: &[&[u8]]) -> Result<Step, ReadError>
    ensures { Gives (λ s. s) result (take_in (texts_of words.now)) }
{
    match words {
        [at, producer, generation, k] => {
            let stage = stage(at)?;
            let producer = self::stage(producer)?;
            let generation = number32(generation)?;
            let k = number32(k)?;
            Ok(Step::Take {
                stage,
                sub: SubNo {
                    consumer: stage,
                    producer,
                    generation,
                },
                k,
            })
        }
        _ => Err(ReadError::Fault(Fault::Word)),
    }
}

/// `done STAGE REPLY,REPLY`
#[tactic(auto, using(crate::proofs::Loops::fails_bind))]
pub(crate) fn done<J: JobMessages>(
    alloc: Global,
    run: &J,
    words: &[&[u8]],
) -> Result<Step, ReadError>
    ensures { Gives (λ s. s) result (done_in (J.jobs run.now) (texts_of words.now)) }
{
    match words {
        [at, texts] => {
            let stage = stage(at)?;
            let replies = replies(alloc, run, Post { stage, slot: 0 }, texts)?;
            Ok(Step::Done { stage, replies })
        }
        _ => Err(ReadError::Fault(Fault::Word)),
    }
}

/// `gather STAGE MESSAGE`
#[tactic(auto, using(crate::proofs::Loops::fails_bind))]
pub(crate) fn gather(words: &[&[u8]]) -> Result<Step, ReadError>
    ensures { Gives (λ s. s) result (gather_in (texts_of words.now)) }
{
    match words {
        [at, message] => {
            let stage = stage(at)?;
            let no = number32(message)?;
            Ok(Step::Gather {
                stage,
                no: MsgNo(no),
            })
        }
        _ => Err(ReadError::Fault(Fault::Word)),
    }
}

/// `close STAGE FIRST TRIGGER`
#[tactic(auto, using(crate::proofs::Loops::fails_bind))]
pub(crate) fn close(words: &[&[u8]]) -> Result<Step, ReadError>
    ensures { Gives (λ s. s) result (close_in (texts_of words.now)) }
{
    match words {
        [at, first, word] => {
            let trigger = trigger(word)?;
            let stage = stage(at)?;
            let first = number32(first)?;
            Ok(Step::Close {
                stage,
                first: MsgNo(first),
                trigger,
            })
        }
        _ => Err(ReadError::Fault(Fault::Word)),
    }
}

/// `wrote STAGE N ENDS`
#[tactic(auto, using(crate::proofs::Loops::fails_bind))]
pub(crate) fn wrote(alloc: Global, words: &[&[u8]]) -> Result<Step, ReadError>
    ensures { Gives (λ s. s) result (wrote_in (texts_of words.now)) }
{
    match words {
        [at, n, texts] => {
            let stage = stage(at)?;
            let bytes = long(n)?;
            let end = ends(alloc, texts)?;
            Ok(Step::Wrote { stage, bytes, end })
        }
        _ => Err(ReadError::Fault(Fault::Word)),
    }
}

/// `child STAGE MESSAGE SLOT`
#[tactic(auto, using(crate::proofs::Loops::fails_bind))]
pub(crate) fn child(words: &[&[u8]]) -> Result<Step, ReadError>
    ensures { Gives (λ s. s) result (child_in (texts_of words.now)) }
{
    match words {
        [at, message, slot] => {
            let stage = stage(at)?;
            let no = number32(message)?;
            let slot = short(slot)?;
            Ok(Step::Child {
                stage,
                no: MsgNo(no),
                slot,
            })
        }
        _ => Err(ReadError::Fault(Fault::Word)),
    }
}

/// `childend STAGE SLOT REPLY`
#[tactic(auto, using(crate::proofs::Loops::fails_bind))]
pub(crate) fn child_end<J: JobMessages>(
    alloc: Global,
    run: &J,
    words: &[&[u8]],
) -> Result<Step, ReadError>
    ensures { Gives (λ s. s) result (child_end_in (J.jobs run.now) (texts_of words.now)) }
{
    match words {
        [at, slot, text] => {
            let stage = stage(at)?;
            let slot = short(slot)?;
            let message = run.message_at(Post { stage, slot }, 0);
            let reply = reply(alloc, message, text)?;
            Ok(Step::ChildEnd { stage, slot, reply })
        }
        _ => Err(ReadError::Fault(Fault::Word)),
    }
}

/// `kill STAGE WHY`
#[tactic(auto, using(crate::proofs::Loops::fails_bind))]
pub(crate) fn kill(words: &[&[u8]]) -> Result<Step, ReadError>
    ensures { Gives (λ s. s) result (kill_in (texts_of words.now)) }
{
    match words {
        [at, word] => {
            let why = why(word)?;
            let stage = stage(at)?;
            Ok(Step::Kill { stage, why })
        }
        _ => Err(ReadError::Fault(Fault::Word)),
    }
}

/// `tick NOW`
#[tactic(auto, using(crate::proofs::Loops::fails_bind))]
pub(crate) fn tick(words: &[&[u8]]) -> Result<Step, ReadError>
    ensures { Gives (λ s. s) result (tick_in (texts_of words.now)) }
{
    match words {
        [time] => {
            let now = long(time)?;
            Ok(Step::Tick { now })
        }
        _ => Err(ReadError::Fault(Fault::Word)),
    }
}

/// `drain CAUSE`
#[tactic(auto, using(crate::proofs::Loops::fails_bind))]
pub(crate) fn drain(words: &[&[u8]]) -> Result<Step, ReadError>
    ensures { Gives (λ s. s) result (drain_in (texts_of words.now)) }
{
    match words {
        [word] => {
            let cause = cause(word)?;
            Ok(Step::Drain { cause })
        }
        _ => Err(ReadError::Fault(Fault::Word)),
    }
}

/// `halt`
pub(crate) fn halt(words: &[&[u8]]) -> Result<Step, ReadError>
    ensures { Gives (λ s. s) result (halt_in (texts_of words.now)) }
{
    match words {
        [] => Ok(Step::Halt),
        _ => Err(ReadError::Fault(Fault::Word)),
    }
}

/// `refuse LINE`
#[tactic(auto, using(crate::proofs::Loops::fails_bind))]
pub(crate) fn refuse(words: &[&[u8]]) -> Result<Step, ReadError>
    ensures { Gives (λ s. s) result (refuse_in (texts_of words.now)) }
{
    match words {
        [number] => {
            let line = number32(number)?;
            Ok(Step::Refuse { line })
        }
        _ => Err(ReadError::Fault(Fault::Word)),
    }
}
