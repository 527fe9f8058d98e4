//! The words behind `late`.

ghost use Rattle.std.specs.Prelude.{◌≡◌, Result};
ghost use Rattle.pipe_types.specs.declared.step.LateAnswer.{LateAnswer as AnswerOf};
ghost use Rattle.line_reading.specs.{declared.fault.Fault.{Fault as FaultOf}, Reading.{Gives, texts_of}};
ghost use Rattle.line_reading.specs.Lines.{by_rows, records_answer_in, wrote_answer_in, late_by, late_records_in, late_alone_in, late_source_in, late_wrote_in, late_rows, late_in};

use crate::fault::{Fault, ReadError};
use crate::fields::{long, number32, short, stage};
use crate::items::{ends, records};
use crate::words::{how, is_word};
use pipe_types::step::{LateAnswer, Step};
use std::alloc::Global;

/// The numbers of a late answer, and then the answer.
#[tactic(auto, using(crate::proofs::Loops::fails_bind))]
fn late_of(
    at: &[u8],
    slot: &[u8],
    incarnation: &[u8],
    answer: Result<LateAnswer, ReadError>,
) -> Result<Step, ReadError>
    ensures { (read : Result AnswerOf FaultOf) → Gives (λ a. a) answer read → Gives (λ s. s) result (late_by at.now slot.now incarnation.now read) }
{
    let stage = stage(at)?;
    let slot = short(slot)?;
    let incarnation = number32(incarnation)?;
    let answer = answer?;
    Ok(Step::Late {
        stage,
        slot,
        incarnation,
        answer,
    })
}

/// An answer with no more words.
fn late_alone(
    at: &[u8],
    slot: &[u8],
    incarnation: &[u8],
    answer: LateAnswer,
    words: &[&[u8]],
) -> Result<Step, ReadError>
    ensures { Gives (λ s. s) result (late_alone_in answer at.now slot.now incarnation.now (texts_of words.now)) }
{
    match words {
        [] => late_of(at, slot, incarnation, Ok(answer)),
        _ => Err(ReadError::Fault(Fault::Word)),
    }
}

#[tactic(auto, using(crate::proofs::Loops::fails_bind))]
fn records_answer(alloc: Global, texts: &[u8]) -> Result<LateAnswer, ReadError>
    ensures { Gives (λ a. a) result (records_answer_in texts.now) }
{
    let records = records(alloc, texts)?;
    Ok(LateAnswer::Records(records))
}

/// `records BYTES,BYTES`
fn late_records(
    alloc: Global,
    at: &[u8],
    slot: &[u8],
    incarnation: &[u8],
    words: &[&[u8]],
) -> Result<Step, ReadError>
    ensures { Gives (λ s. s) result (late_records_in at.now slot.now incarnation.now (texts_of words.now)) }
{
    match words {
        [texts] => late_of(at, slot, incarnation, records_answer(alloc, texts)),
        _ => Err(ReadError::Fault(Fault::Word)),
    }
}

/// `source HOW`
#[tactic(auto, using(crate::proofs::Loops::fails_bind))]
fn late_source(
    at: &[u8],
    slot: &[u8],
    incarnation: &[u8],
    words: &[&[u8]],
) -> Result<Step, ReadError>
    ensures { Gives (λ s. s) result (late_source_in at.now slot.now incarnation.now (texts_of words.now)) }
{
    match words {
        [word] => {
            let how = how(word)?;
            late_of(at, slot, incarnation, Ok(LateAnswer::Source(how)))
        }
        _ => Err(ReadError::Fault(Fault::Word)),
    }
}

#[tactic(auto, using(crate::proofs::Loops::fails_bind))]
fn wrote_answer(alloc: Global, n: &[u8], texts: &[u8]) -> Result<LateAnswer, ReadError>
    ensures { Gives (λ a. a) result (wrote_answer_in n.now texts.now) }
{
    let bytes = long(n)?;
    let end = ends(alloc, texts)?;
    Ok(LateAnswer::Wrote(bytes, end))
}

/// `wrote N ENDS`
fn late_wrote(
    alloc: Global,
    at: &[u8],
    slot: &[u8],
    incarnation: &[u8],
    words: &[&[u8]],
) -> Result<Step, ReadError>
    ensures { Gives (λ s. s) result (late_wrote_in at.now slot.now incarnation.now (texts_of words.now)) }
{
    match words {
        [n, texts] => late_of(at, slot, incarnation, wrote_answer(alloc, n, texts)),
        _ => Err(ReadError::Fault(Fault::Word)),
    }
}

/// A late answer by its first word and the others.
fn late_by_word(
    alloc: Global,
    at: &[u8],
    slot: &[u8],
    incarnation: &[u8],
    word: &[u8],
    words: &[&[u8]],
) -> Result<Step, ReadError>
    ensures { Gives (λ s. s) result (by_rows Fault.Word (late_rows at.now slot.now incarnation.now) word.now (texts_of words.now)) }
{
    if is_word(word, b"records") {
        late_records(alloc, at, slot, incarnation, words)
    } else if is_word(word, b"quiet") {
        late_alone(at, slot, incarnation, LateAnswer::Quiet, words)
    } else if is_word(word, b"source") {
        late_source(at, slot, incarnation, words)
    } else if is_word(word, b"wrote") {
        late_wrote(alloc, at, slot, incarnation, words)
    } else if is_word(word, b"none") {
        late_alone(at, slot, incarnation, LateAnswer::Nothing, words)
    } else {
        Err(ReadError::Fault(Fault::Word))
    }
}

/// `late STAGE SLOT INCARNATION` and a late answer
pub(crate) fn late(alloc: Global, words: &[&[u8]]) -> Result<Step, ReadError>
    ensures { Gives (λ s. s) result (late_in (texts_of words.now)) }
{
    match words {
        [at, slot, incarnation, word, others @ ..] => {
            late_by_word(alloc, at, slot, incarnation, word, others)
        }
        _ => Err(ReadError::Fault(Fault::Word)),
    }
}
