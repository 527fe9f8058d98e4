//! Words of which there are few.

ghost use Rattle.std.specs.Prelude.{◌≡◌, bytes_eq};
ghost use Rattle.line_reading.specs.{Reading.{Gives}, Lines.{how_in, cause_in, trigger_in, why_in}};

use crate::fault::{Fault, ReadError};
use pipe_types::message::{Trigger, Why};
use pipe_types::step::{DrainCause, SourceHow};

/// Whether the word is this one.
pub(crate) fn is_word(word: &[u8], name: &[u8]) -> bool
    ensures { result ≡ bytes_eq word.now name.now }
{
    word == name
}

/// How a source ended.
pub(crate) fn how(word: &[u8]) -> Result<SourceHow, ReadError>
    ensures { Gives (λ how. how) result (how_in word.now) }
{
    if is_word(word, b"end") {
        Ok(SourceHow::End)
    } else if is_word(word, b"fault") {
        Ok(SourceHow::Fault)
    } else if is_word(word, b"toolong") {
        Ok(SourceHow::TooLong)
    } else if is_word(word, b"limit") {
        Ok(SourceHow::Limit)
    } else {
        Err(ReadError::Fault(Fault::Word))
    }
}

/// Why the drain began.
pub(crate) fn cause(word: &[u8]) -> Result<DrainCause, ReadError>
    ensures { Gives (λ cause. cause) result (cause_in word.now) }
{
    if is_word(word, b"sources") {
        Ok(DrainCause::Sources)
    } else if is_word(word, b"control") {
        Ok(DrainCause::Control)
    } else if is_word(word, b"limit") {
        Ok(DrainCause::Limit)
    } else if is_word(word, b"idle") {
        Ok(DrainCause::Idle)
    } else {
        Err(ReadError::Fault(Fault::Word))
    }
}

/// Why a batch was closed.
pub(crate) fn trigger(word: &[u8]) -> Result<Trigger, ReadError>
    ensures { Gives (λ trigger. trigger) result (trigger_in word.now) }
{
    if is_word(word, b"size") {
        Ok(Trigger::Size)
    } else if is_word(word, b"flush") {
        Ok(Trigger::Flush)
    } else if is_word(word, b"timeout") {
        Ok(Trigger::Timeout)
    } else {
        Err(ReadError::Fault(Fault::Word))
    }
}

/// Why a stage was killed.
pub(crate) fn why(word: &[u8]) -> Result<Why, ReadError>
    ensures { Gives (λ why. why) result (why_in word.now) }
{
    if is_word(word, b"crash") {
        Ok(Why::Crash)
    } else if is_word(word, b"kill") {
        Ok(Why::Kill)
    } else if is_word(word, b"stop") {
        Ok(Why::Stop)
    } else {
        Err(ReadError::Fault(Fault::Word))
    }
}
