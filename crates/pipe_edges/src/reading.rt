//! The reading of a fetch: whole lines off what is held, or more bytes until there is a reason to stop.

ghost use Rattle.std.specs.Prelude.{◌≡◌, ◌<◌, ℕ, IfOk};
ghost use Rattle.pipe_edges.specs.{Texts.{IsLine}, Handed.{Handed}, Needed.{ReadsAsNeeded}, Fetch.{answer_of}, Pacing.{RoundIsPaced, as_round}};
ghost use Rattle.pipe_edges.specs.Stop.{fetched_of, end_of, text_in, text_in_round, StopHasCause, RoundHasCause};

use crate::held::{Held, MAX_LINE};
use crate::{ByteSource, ReadEnd};
use pipe_types::bytes::BytesList;
use std::alloc::{AllocError, Global};

/// Why no more lines come: the source ended, it failed, or a line is longer than 65,536 bytes.
#[derive(Clone, Copy, PartialEq, Eq)]
pub enum LineEnd {
    End,
    Fault,
    TooLong,
}

impl LineEnd {
    pub fn answer(self) -> Fetched
        ensures { result ≡ answer_of self }
    {
        match self {
            LineEnd::End => Fetched::End,
            LineEnd::Fault => Fetched::Fault,
            LineEnd::TooLong => Fetched::TooLong,
        }
    }
}

/// What a fetch came to: one line at least, nothing ready yet, or an end.
#[derive(Drop)]
pub enum Fetched {
    Records(BytesList),
    NotYet,
    End,
    Fault,
    TooLong,
}

// Why the reading stops: whole lines, a last line without an LF, nothing ready yet, or an end.
#[derive(Drop)]
pub enum Stop {
    Lines(BytesList),
    Last(BytesList),
    NotYet,
    Ended(LineEnd),
}

impl Stop {
    pub fn end(&self) -> Option<LineEnd>
        ensures { result ≡ end_of self.now }
    {
        match self {
            Stop::Lines(_) | Stop::NotYet => None,
            Stop::Last(_) => Some(LineEnd::End),
            Stop::Ended(end) => Some(*end),
        }
    }

    pub fn into_fetched(self) -> Fetched
        ensures { result ≡ fetched_of self }
    {
        match self {
            Stop::Lines(records) | Stop::Last(records) => Fetched::Records(records),
            Stop::NotYet => Fetched::NotYet,
            Stop::Ended(end) => end.answer(),
        }
    }
}

// Reads until there is a reason to stop.
pub fn read_on<B: ByteSource>(
    alloc: Global,
    source: &mut B,
    held: &mut Held,
    max: u32,
) -> Result<Stop, AllocError>
    requires { 0 < max }
    ensures handed { Handed B.ByteSource source.old source.new held.old held.new
        (text_in result) }
    ensures cause { IfOk result (StopHasCause B.ByteSource source.old source.new held.new max) }
    ensures paced { RoundIsPaced B.ByteSource source.old source.new held.old held.new (as_round result) }
    ensures needed { ReadsAsNeeded held.old held.new (text_in result) }
    ensures unread { ¬ IsLine held.old → source.new ≡ source.old }
{
    loop {
        if let Some(stop) = go_round(alloc, source, held, max)? {
            return Ok(stop);
        }
    }
}

// Cuts lines off what is held, or reads once where no whole line is held.
fn go_round<B: ByteSource>(
    alloc: Global,
    source: &mut B,
    held: &mut Held,
    max: u32,
) -> Result<Option<Stop>, AllocError>
    requires { 0 < max }
    ensures handed { Handed B.ByteSource source.old source.new held.old held.new
        (text_in_round result) }
    ensures cause { IfOk result (RoundHasCause B.ByteSource source.old source.new
        held.old held.new max) }
    ensures paced { RoundIsPaced B.ByteSource source.old source.new held.old held.new result }
    ensures needed { ReadsAsNeeded held.old held.new (text_in_round result) }
    ensures unread { ¬ IsLine held.old → source.new ≡ source.old }
{
    let records = held.take_lines(max)?;
    if !records.as_slice().is_empty() {
        return Ok(Some(Stop::Lines(records)));
    }
    if held.len() > MAX_LINE {
        return Ok(Some(Stop::Ended(LineEnd::TooLong)));
    }
    read_round(alloc, source, held)
}

// Reads once, and takes what is held as the last line where the source ended.
fn read_round<B: ByteSource>(
    alloc: Global,
    source: &mut B,
    held: &mut Held,
) -> Result<Option<Stop>, AllocError>
    requires { IsLine held.old }
    ensures handed { Handed B.ByteSource source.old source.new held.old held.new
        (text_in_round result) }
    ensures cause { (max : ℕ) → IfOk result (RoundHasCause B.ByteSource source.old source.new
        held.old held.new max) }
    ensures paced { RoundIsPaced B.ByteSource source.old source.new held.old held.new result }
    ensures needed { ReadsAsNeeded held.old held.new (text_in_round result) }
{
    // The list is made before the read, so that nothing can fail after it.
    let mut last = Vec::with_capacity(alloc, 1)?;
    match held.read_from(source)? {
        ReadEnd::Got(_) => Ok(None),
        ReadEnd::Empty => Ok(Some(Stop::NotYet)),
        ReadEnd::Failed => Ok(Some(Stop::Ended(LineEnd::Fault))),
        ReadEnd::End => {
            if held.len() == 0 {
                return Ok(Some(Stop::Ended(LineEnd::End)));
            }
            if last.push(held.take_all()).is_err() {
                unreachable!();
            }
            Ok(Some(Stop::Last(BytesList::from_vec(last))))
        }
    }
}
