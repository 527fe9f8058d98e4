//! A case as texts.
//!
//! Its lines: `case TITLE`, or `again TITLE` with the topology file of the case before; `|TEXT` is a line of the topology file;
//! `limits WORDS` gives stages limits on restarts of their own (`limits.rt`); `control TEXT` and `repeat N TEXT` add to what the
//! control source has, where `\n` and `\r` are a line feed and a carriage return; `reads WORDS` says how it is read: a number
//! gives so many bytes, `wait` nothing yet, another word fails. Any other line is acts, with `;`
//! between two.

use pipe_types::numbers::StageNo;
use std::alloc::{AllocError, Global};

/// What a case gives.
#[derive(Drop)]
pub struct Case {
    pub title: String,
    pub file: String,
    pub limits: String,
    pub control: String,
    pub reads: String,
    pub acts: String,
}

impl Case {
    pub fn new(alloc: Global) -> Self {
        Case {
            title: String::new(alloc),
            file: String::new(alloc),
            limits: String::new(alloc),
            control: String::new(alloc),
            reads: String::new(alloc),
            acts: String::new(alloc),
        }
    }

    /// Adds what the line gives.
    pub fn read(&mut self, line: &str) -> Result<(), AllocError> {
        if let Some(text) = line.strip_prefix('|') {
            return add_line(&mut self.file, text);
        }
        let (word, rest) = halves(line);
        if word == "case" {
            self.file.clear();
            self.title.push_str(rest)
        } else if word == "again" {
            self.title.push_str(rest)
        } else if word == "limits" {
            self.limits.push_str(rest)
        } else if word == "control" {
            add_text(&mut self.control, rest)
        } else if word == "repeat" {
            let (count, text) = halves(rest);
            add_often(&mut self.control, number(count), text)
        } else if word == "reads" {
            self.reads.push_str(rest)
        } else {
            self.add_acts(line)
        }
    }

    fn add_acts(&mut self, line: &str) -> Result<(), AllocError> {
        for act in line.split(';') {
            add_line(&mut self.acts, act)?;
        }
        Ok(())
    }

    /// Forgets all but the topology file.
    pub fn end(&mut self) {
        self.title.clear();
        self.limits.clear();
        self.control.clear();
        self.reads.clear();
        self.acts.clear();
    }
}

fn add_line(out: &mut String, line: &str) -> Result<(), AllocError> {
    out.push_str(line)?;
    out.push('\n')
}

fn add_often(out: &mut String, many: u64, text: &str) -> Result<(), AllocError> {
    for _ in 0..many {
        add_text(out, text)?;
    }
    Ok(())
}

/// Adds the text, with the characters that it names.
fn add_text(out: &mut String, text: &str) -> Result<(), AllocError> {
    let mut named = false;
    for letter in text.chars() {
        if named {
            out.push(named_by(letter))?;
            named = false;
        } else if letter == '\\' {
            named = true;
        } else {
            out.push(letter)?;
        }
    }
    Ok(())
}

fn named_by(letter: char) -> char {
    match letter {
        'n' => '\n',
        'r' => '\r',
        _ => letter,
    }
}

/// What stands before the first space, and behind it.
pub fn halves(line: &str) -> (&str, &str) {
    line.split_once(' ').unwrap_or((line, ""))
}

/// The number that the text is, or 0.
pub fn number(text: &str) -> u64 {
    text.parse::<u64>().unwrap_or(0)
}

/// The small number that the text is, or 0.
pub fn small(text: &str) -> u16 {
    text.parse::<u16>().unwrap_or(0)
}

/// The item at this place, from 0, of those between colons.
pub fn item(text: &str, at: usize) -> &str {
    text.split(':').nth(at).unwrap_or("")
}

pub fn stage(text: &str) -> StageNo {
    StageNo(small(text))
}
