//! One line behind the first.

ghost use Rattle.std.specs.{Prelude.{◌≡◌, ◌∷◌, [], IfOk, decimal, bytes_eq, if◌then◌else◌}, List.{slice_split}};
ghost use Rattle.line_reading.specs.{Lines.{step_in}, Reading.{is_at}};
ghost use Rattle.reading_laws.specs.Text.{line_in, end_in, step_or_fault};
ghost use Rattle.journal_reading.specs.Reads.{jobs_of, read_as, parts_in};

use crate::fault::{JournalFault, fault_of};
use crate::known::Known;
use crate::lines::{cut_at, is_same};
use itoa::Buffer;
use line_reading::{ReadError, read_line};
use pipe_types::step::Step;
use plain_run::PlainRun;
use std::alloc::{AllocError, Global};

/// What a line behind the first spells.
#[derive(Drop)]
pub enum LineRead {
    /// A step.
    Step(Step),
    /// The end line, with the number of steps in front of it.
    End,
    /// Neither: its first fault, which is never `Header` and never `OutOfMemory`.
    Bad(JournalFault),
}

/// The first word of a line, and what stands behind its space, where it has one.
#[derive(Clone, Copy)]
struct Words<'a> {
    first: &'a [u8],
    behind: Option<&'a [u8]>,
}

fn words_of(line: &[u8]) -> Words<'_>
    ensures { slice_split (is_at 32) line.now ≡ result.first.now ∷ parts_in result.behind }
{
    match cut_at(line, b' ') {
        Some(cut) => Words {
            first: cut.front,
            behind: Some(cut.rest),
        },
        None => Words {
            first: line,
            behind: None,
        },
    }
}

/// Whether the text spells this number.
fn is_number(text: &[u8], number: u64) -> bool
    ensures { result ≡ bytes_eq text.now (decimal number) }
{
    let mut buffer = Buffer::new();
    is_same(text, buffer.format(number).as_bytes())
}

/// The end line, by what stands behind its first word and its space, where so many steps stand in front of it.
fn read_count(number: &[u8], steps: u64) -> LineRead
    ensures { result ≡ read_as (end_in steps (slice_split (is_at 32) number.now)) }
{
    if is_number(number, steps) {
        LineRead::End
    } else {
        LineRead::Bad(JournalFault::End)
    }
}

/// The end line, by what stands behind its first word, where so many steps stand in front of it.
fn read_end(behind: Option<&[u8]>, steps: u64) -> LineRead
    ensures { result ≡ read_as (end_in steps (parts_in behind.entry)) }
{
    match behind {
        Some(number) => read_count(number, steps),
        None => LineRead::Bad(JournalFault::End),
    }
}

/// The line of a step.
fn read_known(alloc: Global, run: Option<&PlainRun>, line: &[u8]) -> Result<LineRead, AllocError>
    ensures { IfOk result (λ read. read ≡ read_as (step_or_fault (step_in (jobs_of run.entry) line.now))) }
{
    match read_line(alloc, &Known { run }, line) {
        Ok(step) => Ok(LineRead::Step(step)),
        Err(ReadError::Fault(fault)) => Ok(LineRead::Bad(fault_of(fault))),
        Err(ReadError::Memory) => Err(AllocError),
    }
}

/// What the line spells, without its LF, where so many lines of steps stand between it and the first. `run` has those steps,
/// and is None where they are not legal: then a passed reply belongs to no message.
pub fn read_step(
    alloc: Global,
    run: Option<&PlainRun>,
    line: &[u8],
    steps: u64,
) -> Result<LineRead, AllocError>
    ensures { IfOk result (λ read. read ≡ read_as (line_in (jobs_of run.entry) steps line.now)) }
{
    let words = words_of(line);
    if is_same(words.first, b"end") {
        Ok(read_end(words.behind, steps))
    } else {
        read_known(alloc, run, line)
    }
}
