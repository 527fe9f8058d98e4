//! The records that a seed gives.

ghost use Rattle.std.specs.Prelude.{◌≡◌, ◌≤◌, ℕ, ◌<◌, ◌^◌, All, ◌++◌, ◌∷◌, [], IfOk, OnOk, codes, string_bytes};
ghost use Rattle.pipe_types.specs.Lines.{lines};
ghost use Rattle.pipe_edges.specs.Texts.{IsLine, ended};
ghost use Rattle.made_sources.specs.Records.{next, word, record_text, record_if, records_made};

use crate::source::MadeSource;
use pipe_edges::ByteSource;
use pipe_types::bytes::Bytes;
use std::alloc::{AllocError, Global};

/// The value behind the last.
fn next(x: u32) -> u32
    ensures { result ≡ next x }
{
    ((u64::from(x) * 1_664_525 + 1_013_904_223) % 4_294_967_296) as u32
}

fn word(x: u32) -> &'static str
    ensures { result.now ≡ word x }
{
    if x / 65_536 % 4 == 0 { "hot" } else { "cold" }
}

/// The record with this number, of this value.
#[tactic(auto, using(std::proofs::lemmas::List::append_assoc))]
fn record_text(alloc: Global, x: u32, no: u32) -> Result<String, AllocError>
    ensures { IfOk result (λ text. string_bytes text ≡ record_text x no) }
{
    let word = word(x);
    let v = x / 256 % 1000;
    format!(in alloc; "{word} {v} {no}")
}

/// Puts the text and an LF behind the bytes.
fn add_line(bytes: &mut Vec<u8>, text: &str) -> Result<(), AllocError>
    ensures { OnOk result (bytes.new.items ≡ bytes.old.items ++ text.now ++ 10 ∷ []) }
{
    bytes.extend_from_slice(text.as_bytes())?;
    bytes.push(b'\n')?;
    Ok(())
}

/// Puts the record behind the others, where it is one of the producer's.
fn add_record(
    alloc: Global,
    bytes: &mut Vec<u8>,
    is_own: bool,
    x: u32,
    no: u32,
) -> Result<(), AllocError>
    ensures { OnOk result (bytes.new.items ≡ bytes.old.items ++ ended (record_if is_own x no)) }
{
    if !is_own {
        return Ok(());
    }
    let text = record_text(alloc, x, no)?;
    add_line(bytes, text.as_str())
}

/// The records of the producer at that place of so many, each as a line: of the first `count` that the seed gives, those
/// that go to it in turn.
pub fn made_bytes(
    alloc: Global,
    seed: u32,
    count: u32,
    producers: u32,
    place: u32,
) -> Result<Bytes, AllocError>
    requires some { 1 ≤ producers }
    ensures { IfOk result (λ bytes. bytes ≡ ended (records_made seed producers place count)) }
{
    let mut bytes = Vec::new(alloc);
    let mut x = seed;
    for others in 0..count {
        x = next(x);
        add_record(
            alloc,
            &mut bytes,
            others % producers == place,
            x,
            others + 1,
        )?;
    }
    Ok(Bytes::from_vec(bytes))
}

/// The records of a source that was made so are its lines, and none of them is too long.
#[tactic(auto, using(crate::proofs::Lines::made_lines))]
pub fn records_are_lines()
    ensures { (seed producers place count : ℕ) → count < 2 ^ 32
        → (lines (ended (records_made seed producers place count)) ≡ records_made seed producers place count) × All IsLine (records_made seed producers place count) }
{}

/// A source of these records, of which none was read.
pub fn made_source(
    alloc: Global,
    seed: u32,
    count: u32,
    producers: u32,
    place: u32,
) -> Result<MadeSource, AllocError>
    requires some { 1 ≤ producers }
    ensures taken { IfOk result (λ source. ⟦<MadeSource as ByteSource>⟧.taken source ≡ []) }
    ensures left { IfOk result (λ source. ⟦<MadeSource as ByteSource>⟧.left source ≡ ended (records_made seed producers place count)) }
{
    Ok(MadeSource::new(alloc, made_bytes(alloc, seed, count, producers, place)?))
}
