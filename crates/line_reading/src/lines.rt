//! The line of a step.

ghost use Rattle.std.specs.{Prelude.{◌≡◌, bytes_eq, codes}, List.{slice_split}};
ghost use Rattle.line_reading.specs.{Reading.{Gives, texts_of, is_at}, Lines.{rows, rows_of_numbers, rows_of_one, rows_of_words, rows_of_lists, by_rows, by_first, step_in}};

use crate::fault::{Fault, ReadError};
use crate::fields::parts;
use crate::jobs::JobMessages;
use crate::kinds;
use crate::late::late;
use crate::words::is_word;
use pipe_types::step::Step;
use std::alloc::Global;

/// The step of a line of lists or replies, by its first word and the others.
#[tactic(auto, unfolding(crate::specs::Lines::rows_of_lists))]
fn read_lists<J: JobMessages>(
    alloc: Global,
    run: &J,
    word: &[u8],
    words: &[&[u8]],
) -> Result<Step, ReadError>
    ensures { Gives (λ s. s) result (by_rows Fault.Word (rows_of_lists (J.jobs run.now)) word.now (texts_of words.now)) }
{
    if is_word(word, b"accept") {
        kinds::accept(alloc, words)
    } else if is_word(word, b"done") {
        kinds::done(alloc, run, words)
    } else if is_word(word, b"wrote") {
        kinds::wrote(alloc, words)
    } else if is_word(word, b"childend") {
        kinds::child_end(alloc, run, words)
    } else if is_word(word, b"late") {
        late(alloc, words)
    } else {
        Err(ReadError::Fault(Fault::Word))
    }
}

/// The step of a line of a word of few; another kind is read by `read_lists`.
#[tactic(auto, unfolding(crate::specs::Lines::rows_of_words))]
fn read_words<J: JobMessages>(
    alloc: Global,
    run: &J,
    word: &[u8],
    words: &[&[u8]],
) -> Result<Step, ReadError>
    ensures { Gives (λ s. s) result (by_rows Fault.Word (rows_of_words (rows_of_lists (J.jobs run.now))) word.now (texts_of words.now)) }
{
    if is_word(word, b"source") {
        kinds::source_end(words)
    } else if is_word(word, b"close") {
        kinds::close(words)
    } else if is_word(word, b"kill") {
        kinds::kill(words)
    } else if is_word(word, b"drain") {
        kinds::drain(words)
    } else if is_word(word, b"halt") {
        kinds::halt(words)
    } else {
        read_lists(alloc, run, word, words)
    }
}

/// The step of a line of one number; another kind is read by `read_words`.
#[tactic(auto, unfolding(crate::specs::Lines::rows_of_one), using(crate::proofs::Loops::fails_bind))]
fn read_one<J: JobMessages>(
    alloc: Global,
    run: &J,
    word: &[u8],
    words: &[&[u8]],
) -> Result<Step, ReadError>
    ensures { Gives (λ s. s) result (by_rows Fault.Word (rows_of_one (rows_of_words (rows_of_lists (J.jobs run.now)))) word.now (texts_of words.now)) }
{
    if is_word(word, b"quiet") {
        kinds::quiet(words)
    } else if is_word(word, b"dispatch") {
        kinds::dispatch(words)
    } else if is_word(word, b"restart") {
        kinds::restart(words)
    } else if is_word(word, b"tick") {
        kinds::tick(words)
    } else if is_word(word, b"refuse") {
        kinds::refuse(words)
    } else {
        read_words(alloc, run, word, words)
    }
}

/// The step of a line of several numbers; another kind is read by `read_one`.
#[tactic(auto, unfolding(crate::specs::Lines::rows, crate::specs::Lines::rows_of_numbers))]
fn read_numbers<J: JobMessages>(
    alloc: Global,
    run: &J,
    word: &[u8],
    words: &[&[u8]],
) -> Result<Step, ReadError>
    ensures { Gives (λ s. s) result (by_rows Fault.Word (rows (J.jobs run.now)) word.now (texts_of words.now)) }
{
    if is_word(word, b"ask") {
        kinds::ask(words)
    } else if is_word(word, b"fetch") {
        kinds::fetch(words)
    } else if is_word(word, b"take") {
        kinds::take(words)
    } else if is_word(word, b"gather") {
        kinds::gather(words)
    } else if is_word(word, b"child") {
        kinds::child(words)
    } else {
        read_one(alloc, run, word, words)
    }
}

/// The step that the line spells, without its LF, or the first fault of the line. A line that is read is the text of its step.
/// `run` knows the messages that passed replies belong to.
pub fn read_line<J: JobMessages>(alloc: Global, run: &J, line: &[u8]) -> Result<Step, ReadError>
    ensures { Gives (λ s. s) result (step_in (J.jobs run.now) line.now) }
{
    let words = parts(alloc, line, b' ')?;
    match words.as_slice().split_first() {
        Some((word, others)) => read_numbers(alloc, run, word, others),
        None => Err(ReadError::Fault(Fault::Word)),
    }
}
