//! Numbers, and bytes in hexadecimal digits.

ghost use Rattle.std.specs.{Prelude.{◌≡◌, ◌<◌, ◌≤◌, IfSome, ◌+◌, ◌*◌, ◌-◌, map, IfOk, Option, Some, None, if◌then◌else◌, ◌&&◌, nat_le}, List.{slice_split}};
ghost use Rattle.line_reading.specs.Lines.{stage_in, short_number, number as number_of, long_number};
ghost use Rattle.line_reading.specs.Reading.{Gives, is_digit, is_at, number_in, digits_after, next_number, digit_in, pair_in, pairs_in, bytes_in};

use crate::fault::{Fault, ReadError};
use pipe_types::bytes::Bytes;
use pipe_types::numbers::StageNo;
use std::alloc::{AllocError, Global};

/// The parts of the bytes, which are cut at each such byte.
pub(crate) fn parts<'a>(alloc: Global, bytes: &'a [u8], at: u8) -> Result<Vec<&'a [u8]>, AllocError>
    ensures { IfOk result (λ parts. map (λ p. p.now) parts.items ≡ slice_split (is_at at) bytes.now) }
{
    bytes.split(|b| *b == at).collect(alloc)
}

/// The number that one more digit makes, where it is at most this one.
fn next_number(most: u64, n: u64, digit: u8) -> Option<u64>
    ensures next { result ≡ next_number most n digit }
    ensures fits { IfSome result (λ next. next ≤ most) }
{
    if !digit.is_ascii_digit() {
        return None;
    }
    let tens = n.checked_mul(10)?;
    let next = tens.checked_add(u64::from(digit - b'0'))?;
    if next <= most { Some(next) } else { None }
}

/// The number that the digits make.
fn digits(most: u64, text: &[u8]) -> Result<u64, Fault>
    ensures read { result ≡ digits_after most 0 text.now }
    ensures fits { IfOk result (λ n. n ≤ most) }
{
    let mut n: u64 = 0;
    for b in text {
        match next_number(most, n, *b) {
            Some(next) => n = next,
            None => return Err(Fault::Number),
        }
    }
    Ok(n)
}

/// The number that the text spells, which is at most this one.
fn number(most: u64, text: &[u8]) -> Result<u64, Fault>
    ensures read { result ≡ number_in most text.now }
    ensures fits { IfOk result (λ n. n ≤ most) }
{
    match text {
        [] => Err(Fault::Number),
        [_] => digits(most, text),
        [first, ..] => {
            if *first == b'0' {
                Err(Fault::Number)
            } else {
                digits(most, text)
            }
        }
    }
}

/// A number of 16 bits.
#[tactic(auto, unfolding(crate::specs::Lines::short_number))]
pub(crate) fn short(text: &[u8]) -> Result<u16, ReadError>
    ensures { Gives (λ n. n) result (short_number text.now) }
{
    match number(65535, text) {
        Ok(n) => Ok(n as u16),
        Err(fault) => Err(ReadError::Fault(fault)),
    }
}

/// A number of 32 bits.
#[tactic(auto, unfolding(crate::specs::Lines::number))]
pub(crate) fn number32(text: &[u8]) -> Result<u32, ReadError>
    ensures { Gives (λ n. n) result (number_of text.now) }
{
    match number(4294967295, text) {
        Ok(n) => Ok(n as u32),
        Err(fault) => Err(ReadError::Fault(fault)),
    }
}

/// A number of 64 bits.
#[tactic(auto, unfolding(crate::specs::Lines::long_number))]
pub(crate) fn long(text: &[u8]) -> Result<u64, ReadError>
    ensures { Gives (λ n. n) result (long_number text.now) }
{
    match number(18446744073709551615, text) {
        Ok(n) => Ok(n),
        Err(fault) => Err(ReadError::Fault(fault)),
    }
}

/// A stage.
#[tactic(auto, unfolding(crate::specs::Lines::stage_in), using(crate::proofs::Loops::fails_bind))]
pub(crate) fn stage(text: &[u8]) -> Result<StageNo, ReadError>
    ensures { Gives (λ s. s) result (stage_in text.now) }
{
    let n = short(text)?;
    Ok(StageNo(n))
}

/// The value of a hexadecimal digit in lower case.
fn digit(byte: u8) -> Result<u8, Fault>
    ensures value { result ≡ digit_in byte }
    ensures small { IfOk result (λ d. d < 16) }
{
    match byte {
        b'0'..=b'9' => Ok(byte - b'0'),
        b'a'..=b'f' => Ok(byte - 87),
        _ => Err(Fault::Bytes),
    }
}

/// The byte that two digits make.
fn pair(high: u8, low: u8) -> Result<u8, Fault>
    ensures { result ≡ pair_in high low }
{
    match (digit(high), digit(low)) {
        (Ok(high), Ok(low)) => Ok(high * 16 + low),
        _ => Err(Fault::Bytes),
    }
}

/// The bytes whose digits stand there, two for each.
fn pairs(alloc: Global, text: &[u8]) -> Result<Vec<u8>, ReadError>
    ensures { Gives (λ v. v.items) result (pairs_in text.now) }
{
    let mut bytes = Vec::with_capacity(alloc, text.len() / 2)?;
    for at in 0..text.len() / 2 {
        match pair(text[2 * at], text[2 * at + 1]) {
            Ok(byte) => bytes.push(byte)?,
            Err(fault) => return Err(ReadError::Fault(fault)),
        }
    }
    if text.len() % 2 == 0 {
        Ok(bytes)
    } else {
        Err(ReadError::Fault(Fault::Bytes))
    }
}

/// The bytes that the text spells.
pub(crate) fn bytes(alloc: Global, text: &[u8]) -> Result<Bytes, ReadError>
    ensures { Gives (λ b. b) result (bytes_in text.now) }
{
    match text {
        [] => Err(ReadError::Fault(Fault::Bytes)),
        [only] => {
            if *only == b'-' {
                Ok(Bytes::from_vec(Vec::new(alloc)))
            } else {
                Err(ReadError::Fault(Fault::Bytes))
            }
        }
        _ => Ok(Bytes::from_vec(pairs(alloc, text)?)),
    }
}
