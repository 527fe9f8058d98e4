//! Rules, as their texts spell them.

ghost use Rattle.std.specs.Prelude.{◌≡◌, ℕ, List, [], Some, ◌<◌, ◌^◌, length, option_map, position, bytes_eq, IfOk};
ghost use Rattle.pipe_types.specs.declared.topology.Rule.TheVariants as rule;
ghost use Rattle.config_rule.specs.RuleText.{rule_of, rule_from, route_by, form_rule, number_of, at_space as at_space_of, decimal_in as decimal_in_of};

use crate::words::{at_space, decimal_in};
use pipe_types::bytes::{Bytes, Text};
use pipe_types::topology::Rule;
use std::alloc::{AllocError, Global};

/// A rule that borrows from its text. A batcher stands there by its name.
#[derive(Clone, Copy)]
pub enum RuleForm<'a> {
    Pass,
    Prefix(&'a [u8]),
    Require(&'a [u8]),
    Route(u8, &'a [u8], &'a [u8]),
    Key(u8),
    Flush(&'a [u8]),
    Raise(&'a [u8]),
    Crash(&'a [u8]),
    FailEvery(u32),
}

/// Whether the word is this one.
fn is_word(word: &[u8], name: &str) -> bool
    ensures { result ≡ bytes_eq word.now name.now }
{
    word == name.as_bytes()
}

/// The rule of a route's field, batcher and value.
fn parse_route<'a>(rest: &'a [u8]) -> Option<RuleForm<'a>>
    ensures { (names : List (List ℕ)) → option_map (form_rule names) result ≡ route_by names (at_space_of rest.now) }
{
    let (field, rest) = at_space(rest)?;
    let field = decimal_in(0, 255, field)?;
    let (batcher, value) = at_space(rest)?;
    Some(RuleForm::Route(field as u8, batcher, value))
}

/// The rule of a word and the text after it.
fn parse_parts<'a>(word: &'a [u8], rest: &'a [u8]) -> Option<RuleForm<'a>>
    ensures { (names : List (List ℕ)) → option_map (form_rule names) result ≡ rule_from names [] (Some (word.now, rest.now)) }
{
    if is_word(word, "prefix") {
        Some(RuleForm::Prefix(rest))
    } else if is_word(word, "require") {
        Some(RuleForm::Require(rest))
    } else if is_word(word, "route") {
        parse_route(rest)
    } else if is_word(word, "key") {
        parse_key(rest)
    } else if is_word(word, "flush") {
        Some(RuleForm::Flush(rest))
    } else if is_word(word, "raise") {
        Some(RuleForm::Raise(rest))
    } else if is_word(word, "crash") {
        Some(RuleForm::Crash(rest))
    } else if is_word(word, "fail_every") {
        parse_fail_every(rest)
    } else {
        None
    }
}

fn parse_key<'a>(rest: &'a [u8]) -> Option<RuleForm<'a>>
    ensures { (names : List (List ℕ)) → option_map (form_rule names) result ≡ option_map rule.Key (decimal_in_of 0 255 rest.now) }
{
    match decimal_in(0, 255, rest) {
        Some(field) => Some(RuleForm::Key(field as u8)),
        None => None,
    }
}

fn parse_fail_every<'a>(rest: &'a [u8]) -> Option<RuleForm<'a>>
    ensures { (names : List (List ℕ)) → option_map (form_rule names) result ≡ option_map rule.FailEvery (decimal_in_of 1 1000000 rest.now) }
{
    match decimal_in(1, 1_000_000, rest) {
        Some(count) => Some(RuleForm::FailEvery(count)),
        None => None,
    }
}

/// The rule that the text spells, or none where it spells none.
pub fn parse<'a>(text: &'a [u8]) -> Option<RuleForm<'a>>
    ensures { (names : List (List ℕ)) → option_map (form_rule names) result ≡ rule_of names text.now }
{
    match at_space(text) {
        Some((word, rest)) => parse_parts(word, rest),
        None if is_word(text, "pass") => Some(RuleForm::Pass),
        None => None,
    }
}

/// The number of the batcher with this name, or the number of names where there is none.
pub fn batcher_number(names: &[Text], name: &[u8]) -> usize
    ensures { result ≡ number_of names.now name.now }
{
    batcher_place(names, name).unwrap_or(names.len())
}

fn batcher_place(names: &[Text], name: &[u8]) -> Option<usize>
    ensures { result ≡ position (λ known. bytes_eq known name.now) names.now }
{
    names
        .iter()
        .position(|known| known.as_str().as_bytes() == name)
}

fn copied(alloc: Global, text: &[u8]) -> Result<Bytes, AllocError>
    ensures { IfOk result (λ bytes. bytes ≡ text.now) }
{
    Ok(Bytes::from_vec(Vec::from_slice(alloc, text)?))
}

impl RuleForm<'_> {
    /// The rule, where these are the batchers' names.
    pub fn to_rule(self, alloc: Global, names: &[Text]) -> Result<Rule, AllocError>
        requires { length names.now < 2 ^ 16 }
        ensures { IfOk result (λ rule. rule ≡ form_rule names.now self.entry) }
    {
        Ok(match self {
            RuleForm::Pass => Rule::Pass,
            RuleForm::Prefix(text) => Rule::Prefix(copied(alloc, text)?),
            RuleForm::Require(text) => Rule::Require(copied(alloc, text)?),
            RuleForm::Route(field, batcher, value) => Rule::Route(
                field,
                batcher_number(names, batcher) as u16,
                copied(alloc, value)?,
            ),
            RuleForm::Key(field) => Rule::Key(field),
            RuleForm::Flush(text) => Rule::Flush(copied(alloc, text)?),
            RuleForm::Raise(text) => Rule::Raise(copied(alloc, text)?),
            RuleForm::Crash(text) => Rule::Crash(copied(alloc, text)?),
            RuleForm::FailEvery(count) => Rule::FailEvery(count),
        })
    }
}
