//! A case as a text: names, each with its text.

use std::alloc::{AllocError, Global};

/// Texts under names, in the order in which they were read. The first are kept from one case to the next.
#[derive(Drop)]
pub struct Case {
    alloc: Global,
    kept: usize,
    texts: Vec<Named>,
}

/// A text and its name.
#[derive(Drop)]
struct Named {
    name: String,
    text: String,
}

impl Case {
    pub fn new(alloc: Global) -> Self {
        Case {
            alloc,
            kept: 0,
            texts: Vec::new(alloc),
        }
    }

    /// Forgets the texts that are not kept.
    pub fn begin(&mut self) {
        self.texts.truncate(self.kept);
    }

    /// A line that begins with one of these signs adds to the last text:
    ///
    /// - `|TEXT` a line, `+TEXT` one without an end, `$TEXT` one that ends with CR LF
    /// - `*N TEXT` so many lines, `&N TEXT` so many without an end
    /// - `%N ODD|EVEN` so many lines, in turn of these two, with their number in place of `#`; none for an empty one
    /// - `use N NAME` so many times the text of this name
    ///
    /// Any other, `NAME TEXT`, begins a text, and `@NAME` one that is kept.
    pub fn read(&mut self, line: &str) -> Result<(), AllocError> {
        if let Some(more) = line.strip_prefix('|') {
            self.add(1, more, "\n")
        } else if let Some(more) = line.strip_prefix('+') {
            self.add(1, more, "")
        } else if let Some(more) = line.strip_prefix('$') {
            self.add(1, more, "\r\n")
        } else {
            self.read_count(line)
        }
    }

    fn read_count(&mut self, line: &str) -> Result<(), AllocError> {
        if let Some(more) = line.strip_prefix('*') {
            let (count, text) = halves(more);
            self.add(number(count), text, "\n")
        } else if let Some(more) = line.strip_prefix('&') {
            let (count, text) = halves(more);
            self.add(number(count), text, "")
        } else if let Some(more) = line.strip_prefix('%') {
            let (count, texts) = halves(more);
            self.add_turns(number(count), texts)
        } else if let Some(more) = line.strip_prefix("use ") {
            let (count, name) = halves(more);
            self.add_named(number(count), name)
        } else {
            self.read_name(line)
        }
    }

    fn read_name(&mut self, line: &str) -> Result<(), AllocError> {
        if let Some(more) = line.strip_prefix('@') {
            self.begin();
            self.kept = self.kept.saturating_add(1);
            self.put(more)
        } else {
            self.put(line)
        }
    }

    fn put(&mut self, line: &str) -> Result<(), AllocError> {
        let (name, text) = halves(line);
        let name = String::from_str(self.alloc, name)?;
        let text = String::from_str(self.alloc, text)?;
        self.texts.push(Named { name, text })?;
        Ok(())
    }

    fn add(&mut self, count: u64, text: &str, end: &str) -> Result<(), AllocError> {
        if let Some(last) = self.texts.last_mut() {
            for _ in 0..count {
                last.text.push_str(text)?;
                last.text.push_str(end)?;
            }
        }
        Ok(())
    }

    fn add_named(&mut self, count: u64, name: &str) -> Result<(), AllocError> {
        let text = String::from_str(self.alloc, self.text(name))?;
        self.add(count, text.as_str(), "")
    }

    fn add_turns(&mut self, count: u64, texts: &str) -> Result<(), AllocError> {
        let (odd, even) = texts.split_once('|').unwrap_or((texts, ""));
        for at in 0..count {
            if at % 2 == 0 {
                self.add_numbered(odd, at)?;
            } else {
                self.add_numbered(even, at)?;
            }
        }
        Ok(())
    }

    fn add_numbered(&mut self, text: &str, before: u64) -> Result<(), AllocError> {
        let number = before.saturating_add(1);
        match text.split_once('#') {
            Some((front, back)) => {
                let line = format!(in self.alloc; "{front}{number}{back}")?;
                self.add(1, line.as_str(), "\n")
            }
            None => Ok(()),
        }
    }

    /// The last text of this name, or none.
    pub fn text(&self, name: &str) -> &str {
        for named in self.texts.iter().rev() {
            if named.name.as_str() == name {
                return named.text.as_str();
            }
        }
        ""
    }

    /// The text of this name, or this one where there is none.
    pub fn text_or<'a>(&'a self, name: &str, other: &'a str) -> &'a str {
        let text = self.text(name);
        if text.is_empty() { other } else { text }
    }

    /// The number that the text of this name is, or this one.
    pub fn number_or(&self, name: &str, other: u64) -> u64 {
        self.text(name).parse::<u64>().unwrap_or(other)
    }
}

/// What stands before the first space, and behind it.
pub fn halves(line: &str) -> (&str, &str) {
    line.split_once(' ').unwrap_or((line, ""))
}

/// The number that the text is, or 0.
pub fn number(text: &str) -> u64 {
    text.parse::<u64>().unwrap_or(0)
}
