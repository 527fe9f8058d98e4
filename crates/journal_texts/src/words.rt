//! Bytes and numbers, written at the end of a text.

ghost use Rattle.std.specs.Prelude.{◌≡◌, ◌++◌, OnOk, decimal, codes};
ghost use Rattle.journal_texts.specs.{Words.{lf}, Steps.{how_word as word_of_how, cause_word as word_of_cause}, Report.{count_line, named_line}};

use itoa::Buffer;
use pipe_types::step::{DrainCause, SourceHow};
use std::alloc::AllocError;

/// Writes the bytes.
pub(crate) fn put(out: &mut Vec<u8>, text: &[u8]) -> Result<(), AllocError>
    ensures { OnOk result (out.new.items ≡ out.old.items ++ text.now) }
{
    out.extend_from_slice(text)
}

/// Writes the number.
fn put_number(out: &mut Vec<u8>, n: u64) -> Result<(), AllocError>
    ensures { OnOk result (out.new.items ≡ out.old.items ++ decimal n) }
{
    let mut buffer = Buffer::new();
    put(out, buffer.format(n).as_bytes())
}

/// Writes `WORD N` and the end of the line.
#[tactic(auto, using(std::proofs::lemmas::List::append_assoc))]
pub(crate) fn put_count(out: &mut Vec<u8>, word: &[u8], n: u64) -> Result<(), AllocError>
    ensures { OnOk result (out.new.items ≡ out.old.items ++ count_line word.now n) }
{
    put(out, word)?;
    put(out, b" ")?;
    put_number(out, n)?;
    put(out, b"\n")
}

/// Writes `WORD NAME N` and the end of the line.
#[tactic(auto, using(std::proofs::lemmas::List::append_assoc))]
pub(crate) fn put_named(
    out: &mut Vec<u8>,
    word: &[u8],
    name: &[u8],
    n: u64,
) -> Result<(), AllocError>
    ensures { OnOk result (out.new.items ≡ out.old.items ++ named_line word.now name.now n) }
{
    put(out, word)?;
    put(out, b" ")?;
    put(out, name)?;
    put(out, b" ")?;
    put_number(out, n)?;
    put(out, b"\n")
}

pub(crate) fn how_word(how: SourceHow) -> &'static [u8]
    ensures { result.now ≡ word_of_how how }
{
    match how {
        SourceHow::End => b"end",
        SourceHow::Fault => b"fault",
        SourceHow::TooLong => b"toolong",
        SourceHow::Limit => b"limit",
    }
}

pub(crate) fn cause_word(cause: DrainCause) -> &'static [u8]
    ensures { result.now ≡ word_of_cause cause }
{
    match cause {
        DrainCause::Sources => b"sources",
        DrainCause::Control => b"control",
        DrainCause::Limit => b"limit",
        DrainCause::Idle => b"idle",
    }
}
