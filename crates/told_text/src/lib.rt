//! The text that the cases of a program of tests come to.
//!
//! A case adds its words to one text, which main prints at the end: where each is printed as it comes, each print may fail, and
//! at each such early return the proof lets go of all that the case holds. Where memory is wanting the text is cut: what is to
//! be added then is left out, and `print` fails.
#![tactic(auto)]

use std::alloc::{AllocError, Global};
use std::io;

/// How many bytes of a text `spelled` writes out.
const MOST: usize = 99;

#[derive(Drop)]
pub struct Told {
    pub alloc: Global,
    text: String,
    is_cut: bool,
}

impl Told {
    pub fn new(alloc: Global) -> Told {
        Told {
            alloc,
            text: String::new(alloc),
            is_cut: false,
        }
    }

    /// Notes that memory is wanting.
    pub fn cut(&mut self) {
        self.is_cut = true;
    }

    pub fn add(&mut self, word: &str) {
        if self.text.push_str(word).is_err() {
            self.is_cut = true;
        }
    }

    pub fn letter(&mut self, letter: char) {
        if self.text.push(letter).is_err() {
            self.is_cut = true;
        }
    }

    /// Adds the digits of the number.
    pub fn number(&mut self, n: u64) {
        if write!(self.text, "{n}").is_err() {
            self.is_cut = true;
        }
    }

    /// Adds a space and the number.
    pub fn count(&mut self, n: u64) {
        self.behind(" ", n);
    }

    /// Adds the sign and the number.
    pub fn behind(&mut self, sign: &str, n: u64) {
        self.add(sign);
        self.number(n);
    }

    /// Adds a space and the number that was found, or that there is none.
    pub fn found(&mut self, found: Option<u32>) {
        match found {
            Some(n) => self.count(u64::from(n)),
            None => self.add(" none"),
        }
    }

    /// Adds a space, and whether it is so.
    pub fn flag(&mut self, is_so: bool) {
        self.flag_behind(" ", is_so);
    }

    /// Adds the sign, and whether it is so.
    pub fn flag_behind(&mut self, sign: &str, is_so: bool) {
        self.add(sign);
        self.add(if is_so { "true" } else { "false" });
    }

    /// Adds the bytes as a word: `^` is a space, `~` a CR and `$` an LF. Of many bytes their number stands there.
    pub fn spelled(&mut self, bytes: &[u8]) {
        if bytes.len() > MOST {
            self.behind("<", bytes.len() as u64);
            self.add(">");
        } else {
            self.letters(bytes);
        }
    }

    fn letters(&mut self, bytes: &[u8]) {
        for byte in bytes {
            self.letter(letter_of(*byte));
        }
    }

    /// Prints the text, where it is whole.
    pub fn print(&self, rt: &HostRuntime) -> io::Result<()> {
        if self.is_cut {
            return Err(AllocError.into());
        }
        print!(rt; "{}", self.text)
    }
}

fn letter_of(byte: u8) -> char {
    match byte {
        b' ' => '^',
        b'\r' => '~',
        b'\n' => '$',
        _ => byte as char,
    }
}
