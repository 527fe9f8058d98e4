//! The text of a journal with something changed in it.

use std::alloc::{AllocError, Global};

/// What is done at the line of a step. The end line has the number of lines that are steps then.
#[derive(Clone, Copy)]
pub enum Change {
    /// One bit of the line is another.
    Bit,
    /// The line is gone.
    Dropped,
    /// It stands twice.
    Doubled,
    /// It stands behind the next one. The last stands where it stood.
    Swapped,
}

/// What is done so that no text of a journal is left.
#[derive(Clone, Copy)]
pub enum Spoil {
    /// The first line is gone.
    Head,
    /// One byte of the line of a step is one that no line has.
    Byte,
    /// The end line is gone.
    End,
    /// The end line has one step more.
    Count,
}

/// The line of a step in a text, the head being line 0, and one of the bytes of the line. A line that has fewer is meant at its
/// first.
#[derive(Clone, Copy)]
pub struct Spot {
    pub line: usize,
    pub byte: usize,
}

impl Change {
    pub fn name(self) -> &'static str {
        match self {
            Change::Bit => "bit",
            Change::Dropped => "dropped",
            Change::Doubled => "doubled",
            Change::Swapped => "swapped",
        }
    }
}

/// The text of these lines, of which the first is the head and the others are steps, with the change.
pub fn changed(
    alloc: Global,
    lines: &[&str],
    change: Change,
    spot: Spot,
) -> Result<Vec<u8>, AllocError> {
    let steps = lines.len().saturating_sub(1);
    let mut text = Vec::new(alloc);
    for at in 0..lines.len() {
        put_changed(&mut text, lines, change, spot, at)?;
    }
    put_end(alloc, &mut text, steps_left(change, steps))?;
    Ok(text)
}

/// How many lines of steps the change leaves of so many.
fn steps_left(change: Change, steps: usize) -> usize {
    match change {
        Change::Bit | Change::Swapped => steps,
        Change::Dropped => steps.saturating_sub(1),
        Change::Doubled => steps.saturating_add(1),
    }
}

/// Writes what stands in place of this line.
fn put_changed(
    text: &mut Vec<u8>,
    lines: &[&str],
    change: Change,
    spot: Spot,
    at: usize,
) -> Result<(), AllocError> {
    let line = line_at(lines, at);
    let is_here = at == spot.line;
    match change {
        Change::Bit if is_here => put_flipped(text, line, spot.byte),
        Change::Dropped if is_here => Ok(()),
        Change::Doubled if is_here => {
            put(text, line)?;
            put(text, line)
        }
        Change::Swapped => put(text, line_at(lines, swapped(lines.len(), spot.line, at))),
        _ => put(text, line),
    }
}

/// Which of so many lines stands at this place where one stands behind the next.
fn swapped(lines: usize, line: usize, at: usize) -> usize {
    let next = line.saturating_add(1);
    if next >= lines {
        at
    } else if at == line {
        next
    } else if at == next {
        line
    } else {
        at
    }
}

/// The same text, spoilt.
pub fn spoilt(
    alloc: Global,
    lines: &[&str],
    spoil: Spoil,
    spot: Spot,
) -> Result<Vec<u8>, AllocError> {
    let steps = lines.len().saturating_sub(1);
    let mut text = Vec::new(alloc);
    for (at, line) in lines.iter().enumerate() {
        match spoil {
            Spoil::Head if at == 0 => {}
            Spoil::Byte if at == spot.line => put_marred(&mut text, line, spot.byte)?,
            _ => put(&mut text, line)?,
        }
    }
    match spoil {
        Spoil::Head | Spoil::Byte => put_end(alloc, &mut text, steps)?,
        Spoil::Count => put_end(alloc, &mut text, steps.saturating_add(1))?,
        Spoil::End => {}
    }
    Ok(text)
}

/// The first so many of the lines with an end line, as if there were no more.
pub fn front_of(alloc: Global, lines: &[&str], count: usize) -> Result<Vec<u8>, AllocError> {
    let mut text = Vec::new(alloc);
    for (at, line) in lines.iter().enumerate() {
        if at < count {
            put(&mut text, line)?;
        }
    }
    put_end(alloc, &mut text, count.saturating_sub(1))?;
    Ok(text)
}

fn line_at<'a>(lines: &[&'a str], at: usize) -> &'a str {
    match lines.get(at) {
        Some(line) => line,
        None => "",
    }
}

fn put(text: &mut Vec<u8>, line: &str) -> Result<(), AllocError> {
    text.extend_from_slice(line.as_bytes())?;
    text.push(b'\n')?;
    Ok(())
}

fn put_end(alloc: Global, text: &mut Vec<u8>, steps: usize) -> Result<(), AllocError> {
    let end = format!(in alloc; "end {steps}")?;
    put(text, end.as_str())
}

/// Writes the line with another lowest bit in one of its bytes.
fn put_flipped(text: &mut Vec<u8>, line: &str, byte: usize) -> Result<(), AllocError> {
    let place = if byte < line.len() { byte } else { 0 };
    for (at, b) in line.as_bytes().iter().enumerate() {
        text.push(if at == place { *b ^ 1 } else { *b })?;
    }
    text.push(b'\n')?;
    Ok(())
}

/// Writes the line with DEL in place of one of its bytes.
fn put_marred(text: &mut Vec<u8>, line: &str, byte: usize) -> Result<(), AllocError> {
    let place = if byte < line.len() { byte } else { 0 };
    for (at, b) in line.as_bytes().iter().enumerate() {
        text.push(if at == place { 0x7f } else { *b })?;
    }
    text.push(b'\n')?;
    Ok(())
}
