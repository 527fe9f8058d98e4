//! The words of a case.

use pipe_types::message::Why;
use pipe_types::numbers::StageNo;
use pipe_types::topology::CancelMode;
use std::alloc::{AllocError, Global};
use told_text::Told;

/// A case: its title, the part, how the part begins, and the acts on it.
#[derive(Clone, Copy)]
pub struct Case<'a> {
    pub title: &'a str,
    pub part: &'a str,
    pub begun: &'a str,
    pub acts: &'a str,
}

pub fn case_of(text: &str) -> Case<'_> {
    let (title, rest) = cut(text, '\n');
    let (head, acts) = cut(rest, '\n');
    let (part, begun) = cut(head, ' ');
    Case {
        title,
        part,
        begun,
        acts,
    }
}

/// What stands before the first such sign, and behind it.
pub fn cut(text: &str, sign: char) -> (&str, &str) {
    text.split_once(sign).unwrap_or((text, ""))
}

/// The item at this place, from 0, of those between colons.
pub fn item(text: &str, at: usize) -> &str {
    text.split(':').nth(at).unwrap_or("")
}

/// The number that the text is, or 0.
pub fn number(text: &str) -> u32 {
    text.parse::<u32>().unwrap_or(0)
}

/// The number of 64 bits that the text is, or 0.
pub fn long(text: &str) -> u64 {
    text.parse::<u64>().unwrap_or(0)
}

/// The number of 16 bits that the text is, or 0.
pub fn short(text: &str) -> u16 {
    text.parse::<u16>().unwrap_or(0)
}

pub fn stage(text: &str) -> StageNo {
    StageNo(short(text))
}

/// The numbers between commas. A word that is no number is none.
pub fn numbers(alloc: Global, text: &str) -> Result<Vec<u32>, AllocError> {
    let mut found = Vec::new(alloc);
    for word in text.split(',') {
        if let Ok(one) = word.parse::<u32>() {
            found.push(one)?;
        }
    }
    Ok(found)
}

pub fn mode_of(word: &str) -> CancelMode {
    match word {
        "permanent" => CancelMode::Permanent,
        "transient" => CancelMode::Transient,
        _ => CancelMode::Temporary,
    }
}

pub fn why_of(word: &str) -> Why {
    match word {
        "stop" => Why::Stop,
        "crash" => Why::Crash,
        _ => Why::Kill,
    }
}

pub fn refuse(told: &mut Told) {
    told.add(" not-allowed");
}
