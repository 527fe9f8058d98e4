//! Words and numbers of a line.

use pipe_types::bytes::Bytes;
use std::alloc::{AllocError, Global};

/// What stands before the first space, and behind it.
pub fn halves(line: &str) -> (&str, &str) {
    line.split_once(' ').unwrap_or((line, ""))
}

/// The word at this place, from 0, of those between such signs.
pub fn item(text: &str, sign: char, at: usize) -> &str {
    text.split(sign).nth(at).unwrap_or("")
}

/// The number at this place of those between spaces, or 0.
pub fn number(text: &str, at: usize) -> u32 {
    item(text, ' ', at).parse::<u32>().unwrap_or(0)
}

/// The number of 64 bits at this place, or 0.
pub fn long(text: &str, at: usize) -> u64 {
    item(text, ' ', at).parse::<u64>().unwrap_or(0)
}

/// The number of 16 bits at this place, or 0.
pub fn short(text: &str, at: usize) -> u16 {
    item(text, ' ', at).parse::<u16>().unwrap_or(0)
}

/// The bytes that the text is.
pub fn bytes_of(alloc: Global, text: &str) -> Result<Bytes, AllocError> {
    Ok(Bytes::from_vec(Vec::from_slice(alloc, text.as_bytes())?))
}
