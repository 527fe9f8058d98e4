//! Lists of records and of outcomes.

ghost use Rattle.std.specs.Prelude.{◌≡◌, ℕ, if◌then◌else◌, ◌^◌, ◌<◌, ◌+◌, ◌≤◌, map, length, IfOk, IfErr, List, Result, Option, Some, None, option_map, bytes_eq, codes};
ghost use Rattle.std.specs.List.{slice_split};
ghost use Rattle.pipe_types.specs.Sound.{is_reason as is_reason_in};
ghost use Rattle.line_reading.specs.{declared.fault.Fault.{Fault as FaultOf}, Reading.{Gives, Fails, texts_of, is_at}};
ghost use Rattle.line_reading.specs.Lines.{so_far, joined, before, record_in, items_from, list_in, reason_in, reason_alone, by_rows, outcome_rows, successful_in, outcome_in, ends_in};

use crate::fault::{Fault, ReadError};
use crate::fields::{bytes, parts};
use crate::words::is_word;
use pipe_types::bytes::{Bytes, BytesList};
use pipe_types::message::{BatchEnd, Outcome, OutcomeList};
use pipe_types::reason::Reason;
use std::alloc::Global;

/// Takes in what was read, and answers whether some of it is bad. A fault that counts before bad bytes fails.
pub(crate) fn add<T: Drop>(
    items: &mut Vec<T>,
    bad: bool,
    read: Result<T, ReadError>,
) -> Result<bool, ReadError>
    ensures taken { IfOk result (λ now. (r : Result T FaultOf) → Gives (λ x. x) read r → (rest : Result (List T) FaultOf) → joined (so_far bad items.old.items) (before r rest) ≡ joined (so_far now items.new.items) rest) }
    ensures failed { IfErr result (λ e. (r : Result T FaultOf) → Gives (λ x. x) read r → (rest : Result (List T) FaultOf) → Fails e (joined (so_far bad items.old.items) (before r rest))) }
{
    match read {
        Ok(item) => {
            items.push(item)?;
            Ok(bad)
        }
        Err(ReadError::Fault(Fault::Bytes)) => Ok(true),
        Err(ReadError::Fault(Fault::Word)) => Err(ReadError::Fault(Fault::Word)),
        Err(ReadError::Fault(Fault::Number)) => Err(ReadError::Fault(Fault::Number)),
        Err(ReadError::Memory) => Err(ReadError::Memory),
    }
}

/// The records that the texts spell.
fn read_records(alloc: Global, texts: &[&[u8]]) -> Result<Vec<Bytes>, ReadError>
    ensures { Gives (λ v. v.items) result (items_from record_in 0 (texts_of texts.now)) }
{
    let mut records = Vec::new(alloc);
    let mut bad = false;
    for text in texts {
        bad = add(&mut records, bad, bytes(alloc, text))?;
    }
    if bad {
        Err(ReadError::Fault(Fault::Bytes))
    } else {
        Ok(records)
    }
}

/// The records that the text spells, joined by commas.
#[tactic(auto, unfolding(crate::specs::Lines::list_in))]
pub(crate) fn records(alloc: Global, text: &[u8]) -> Result<BytesList, ReadError>
    ensures { Gives (λ l. l) result (list_in record_in text.now) }
{
    let texts = parts(alloc, text, b',')?;
    let records = read_records(alloc, texts.as_slice())?;
    Ok(BytesList::from_vec(records))
}

/// The reason with this text.
fn reason_of(text: &[u8]) -> Option<Reason>
    ensures { result ≡ (if is_reason_in (Some text.now) then Some text.now else None) }
{
    Reason::new(text)
}

/// The reason that the text spells.
#[tactic(auto, using(crate::proofs::Loops::fails_bind))]
pub(crate) fn reason(alloc: Global, text: &[u8]) -> Result<Reason, ReadError>
    ensures { Gives (λ r. r) result (reason_in text.now) }
{
    let why = bytes(alloc, text)?;
    match reason_of(why.as_slice()) {
        Some(reason) => Ok(reason),
        None => Err(ReadError::Fault(Fault::Bytes)),
    }
}

/// A reason and nothing more.
#[tactic(auto, unfolding(crate::specs::Lines::reason_alone))]
pub(crate) fn only_reason(alloc: Global, words: &[&[u8]]) -> Result<Reason, ReadError>
    ensures { Gives (λ r. r) result (reason_alone (texts_of words.now)) }
{
    match words {
        [why] => reason(alloc, why),
        _ => Err(ReadError::Fault(Fault::Bytes)),
    }
}

fn successful(words: &[&[u8]]) -> Result<Outcome, ReadError>
    ensures { Gives (λ o. o) result (successful_in (texts_of words.now)) }
{
    match words {
        [] => Ok(Outcome::Successful),
        _ => Err(ReadError::Fault(Fault::Bytes)),
    }
}

/// `s`, or `f:BYTES`, by the first part and the others.
#[tactic(auto, using(crate::proofs::Loops::fails_bind))]
fn outcome_of(alloc: Global, word: &[u8], words: &[&[u8]]) -> Result<Outcome, ReadError>
    ensures { Gives (λ o. o) result (by_rows Fault.Bytes outcome_rows word.now (texts_of words.now)) }
{
    if is_word(word, b"s") {
        successful(words)
    } else if is_word(word, b"f") {
        let why = only_reason(alloc, words)?;
        Ok(Outcome::Failed(why))
    } else {
        Err(ReadError::Fault(Fault::Bytes))
    }
}

/// The outcome that the text spells, at any place.
#[tactic(auto, unfolding(crate::specs::Lines::outcome_in))]
fn outcome(alloc: Global, text: &[u8]) -> Result<Outcome, ReadError>
    ensures { (i : ℕ) → Gives (λ o. o) result (outcome_in i text.now) }
{
    let parts = parts(alloc, text, b':')?;
    match parts.as_slice().split_first() {
        Some((word, others)) => outcome_of(alloc, word, others),
        None => Err(ReadError::Fault(Fault::Bytes)),
    }
}

/// The outcomes that the texts spell.
fn read_outcomes(alloc: Global, texts: &[&[u8]]) -> Result<Vec<Outcome>, ReadError>
    ensures { Gives (λ v. v.items) result (items_from outcome_in 0 (texts_of texts.now)) }
{
    let mut outcomes = Vec::new(alloc);
    let mut bad = false;
    for text in texts {
        bad = add(&mut outcomes, bad, outcome(alloc, text))?;
    }
    if bad {
        Err(ReadError::Fault(Fault::Bytes))
    } else {
        Ok(outcomes)
    }
}

/// The outcomes that the text spells, joined by commas.
#[tactic(auto, unfolding(crate::specs::Lines::list_in))]
fn outcomes(alloc: Global, text: &[u8]) -> Result<OutcomeList, ReadError>
    ensures { Gives (λ l. l) result (list_in outcome_in text.now) }
{
    let texts = parts(alloc, text, b',')?;
    let outcomes = read_outcomes(alloc, texts.as_slice())?;
    Ok(OutcomeList::from_vec(outcomes))
}

/// How the handling of a batch ended: a list of outcomes, or a crash.
#[tactic(auto, using(crate::proofs::Loops::fails_bind), unfolding(crate::specs::Lines::ends_in))]
pub(crate) fn ends(alloc: Global, text: &[u8]) -> Result<BatchEnd, ReadError>
    ensures { Gives (λ end. end) result (ends_in text.now) }
{
    if is_word(text, b"c") {
        Ok(BatchEnd::Crashed)
    } else {
        let outcomes = outcomes(alloc, text)?;
        Ok(BatchEnd::Outcomes(outcomes))
    }
}
