//! Texts and numbers, as the words of a case spell them.
//!
//! A word is pieces between commas. A piece `N*c` is the character so many times, and any other as it stands, but for `^`, a
//! space, `~`, a CR, and `$`, an LF. The word `-` is the empty text.

ghost use Rattle.std.specs.Prelude.{◌<◌};

use pipe_types::bytes::{Bytes, Text};
use std::alloc::{AllocError, Global};

/// What stands before the first space, and behind it.
pub fn halves(line: &str) -> (&str, &str) {
    line.split_once(' ').unwrap_or((line, ""))
}

/// The number that the word is, or 0.
pub fn number(word: &str) -> usize {
    word.parse::<usize>().unwrap_or(0)
}

/// The number that the word is, or 1.
pub fn count(word: &str) -> u32
    ensures { 0 < result }
{
    word.parse::<u32>().unwrap_or(1).max(1)
}

/// The text that the word spells.
pub fn spelled(alloc: Global, word: &str) -> Result<String, AllocError> {
    let mut text = String::new(alloc);
    if word != "-" {
        for piece in word.split(',') {
            add_piece(&mut text, piece)?;
        }
    }
    Ok(text)
}

fn add_piece(text: &mut String, piece: &str) -> Result<(), AllocError> {
    match piece.split_once('*') {
        Some((count, letter)) => add_many(text, number(count), letter),
        None => add_plain(text, piece),
    }
}

fn add_many(text: &mut String, count: usize, letter: &str) -> Result<(), AllocError> {
    for _ in 0..count {
        text.push_str(letter)?;
    }
    Ok(())
}

fn add_plain(text: &mut String, piece: &str) -> Result<(), AllocError> {
    for letter in piece.chars() {
        text.push(plain(letter))?;
    }
    Ok(())
}

fn plain(letter: char) -> char {
    match letter {
        '^' => ' ',
        '~' => '\r',
        '$' => '\n',
        _ => letter,
    }
}

pub fn bytes_of(alloc: Global, word: &str) -> Result<Bytes, AllocError> {
    let text = spelled(alloc, word)?;
    Ok(Bytes::from_vec(Vec::from_slice(alloc, text.as_str().as_bytes())?))
}

pub fn name_of(alloc: Global, word: &str) -> Result<Text, AllocError> {
    Ok(Text::from_string(spelled(alloc, word)?))
}
