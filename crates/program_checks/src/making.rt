//! Cases that rules make: the number of a row determines one.

use super::case::{Case, number};
use super::texts::{piece_at, pieces_in};
use std::alloc::{AllocError, Global};

/// More pieces than a row has.
const MOST: u32 = 100_000;

/// A number that changes with each roll.
#[derive(Drop)]
struct Dice {
    state: u32,
}

impl Dice {
    /// The next number below `sides`.
    fn roll(&mut self, sides: usize) -> usize {
        self.state = self
            .state
            .wrapping_mul(1_664_525)
            .wrapping_add(1_013_904_223);
        let number = (self.state / 65_536) as usize;
        if sides == 0 { 0 } else { number % sides }
    }
}

/// What is left to be made: a text as it is, or one of the lines of a rule.
#[derive(Clone, Copy)]
enum Piece<'a> {
    Text(&'a str),
    Rule(&'a str),
}

/// A row in the making.
#[derive(Drop)]
struct Making<'a> {
    dice: Dice,
    left: Vec<Piece<'a>>,
    text: String,
}

/// The case of a row. A rule is a text that is kept, and each of its lines may stand for it. In such a line `{A|B|C}` is one of
/// these texts, `{@NAME}` one line of the rule of this name, and `{N@NAME}` fewer than so many; the case is what the rule of
/// this name comes to, with `;` for the ends of lines.
pub fn case_of(alloc: Global, rules: &Case, name: &str, row: u32) -> Result<Case, AllocError> {
    let text = text_of(alloc, rules, name, row)?;
    let mut case = Case::new(alloc);
    for line in text.as_str().split(';') {
        case.read(line)?;
    }
    Ok(case)
}

fn text_of(alloc: Global, rules: &Case, name: &str, row: u32) -> Result<String, AllocError> {
    let mut making = Making {
        dice: Dice { state: row },
        left: Vec::new(alloc),
        text: String::new(alloc),
    };
    making.left.push(Piece::Rule(name))?;
    for _ in 0..MOST {
        match making.left.pop() {
            Some(piece) => making.go_on(rules, piece)?,
            None => return Ok(making.text),
        }
    }
    Ok(making.text)
}

impl<'a> Making<'a> {
    fn go_on(&mut self, rules: &'a Case, piece: Piece<'a>) -> Result<(), AllocError> {
        match piece {
            Piece::Rule(name) => {
                let lines = rules.text(name);
                self.pick(lines.strip_suffix('\n').unwrap_or(lines), '\n')
            }
            Piece::Text(text) => self.add(text),
        }
    }

    /// One of the texts. A choice of one takes no roll.
    fn pick(&mut self, texts: &'a str, between: char) -> Result<(), AllocError> {
        let count = pieces_in(texts, between);
        let place = if count < 2 { 0 } else { self.dice.roll(count) };
        self.left
            .push(Piece::Text(piece_at(texts, between, place)))?;
        Ok(())
    }

    fn add(&mut self, text: &'a str) -> Result<(), AllocError> {
        match text.split_once('{') {
            Some((front, rest)) => {
                self.text.push_str(front)?;
                let (choice, behind) = rest.split_once('}').unwrap_or((rest, ""));
                self.left.push(Piece::Text(behind))?;
                self.choose(choice)
            }
            None => self.text.push_str(text),
        }
    }

    fn choose(&mut self, choice: &'a str) -> Result<(), AllocError> {
        match choice.split_once('@') {
            Some((count, name)) => self.put(count, name),
            None => self.pick(choice, '|'),
        }
    }

    fn put(&mut self, count: &str, name: &'a str) -> Result<(), AllocError> {
        let times = if count.is_empty() {
            1
        } else {
            self.dice.roll(number(count) as usize)
        };
        for _ in 0..times {
            self.left.push(Piece::Rule(name))?;
        }
        Ok(())
    }
}
