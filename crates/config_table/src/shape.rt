//! The texts that a key may hold.

ghost use Rattle.std.specs.{Prelude.{◌≡◌, ◌∷◌, [], ◌≤◌, length, position, bytes_eq, is_some, Some}, List.{list_all}};
ghost use Rattle.pipe_types.specs.Sound.{is_name as is_name_of, is_name_byte, is_reason, is_between};
ghost use Rattle.config_rule.specs.RuleText.{rule_of};
ghost use Rattle.config_table.specs.Shape.{fits as fits_of, word_place as word_place_of};

use crate::format::Shape;
use config_rule::form::parse;
use config_rule::sources::may_be_source;

/// The place of the text among two words.
fn of_two(text: &str, first: &str, second: &str) -> Option<usize>
    ensures { result ≡ position (λ word. bytes_eq word text.now) (first.now ∷ second.now ∷ []) }
{
    if first == text {
        Some(0)
    } else if second == text {
        Some(1)
    } else {
        None
    }
}

/// The place of the text among three words.
fn of_three(text: &str, first: &str, second: &str, third: &str) -> Option<usize>
    ensures { result ≡ position (λ word. bytes_eq word text.now) (first.now ∷ second.now ∷ third.now ∷ []) }
{
    if first == text {
        Some(0)
    } else if second == text {
        Some(1)
    } else if third == text {
        Some(2)
    } else {
        None
    }
}

impl Shape {
    /// The place of the text among the words of a key that holds one of a few.
    pub fn word_place(self, text: &str) -> Option<usize>
        ensures { result ≡ word_place_of self text.now }
    {
        match self {
            Shape::Mode => of_two(text, "pull", "push"),
            Shape::Keep => of_two(text, "last", "first"),
            Shape::Cancel => of_three(text, "temporary", "transient", "permanent"),
            Shape::Restart => of_two(text, "temporary", "transient"),
            Shape::Kind => of_two(text, "steps", "own"),
            Shape::BatchKind => of_three(text, "lines", "steps", "own"),
            Shape::Name
            | Shape::Edge
            | Shape::Source
            | Shape::Reason
            | Shape::Rule
            | Shape::Selector
            | Shape::Any => None,
        }
    }

    /// Whether the key may hold this text.
    pub fn fits(self, text: &str) -> bool
        ensures { result ≡ fits_of self text.now }
    {
        match self {
            Shape::Name => is_name(text),
            Shape::Edge => is_edge(text),
            Shape::Source => is_edge(text) && may_be_source(text.as_bytes()),
            Shape::Reason => is_reason_text(text.as_bytes()),
            Shape::Rule => is_rule_text(text.as_bytes()),
            Shape::Selector => text.len() <= 4096,
            Shape::Any => true,
            Shape::Mode => self.word_place(text).is_some(),
            Shape::Keep => self.word_place(text).is_some(),
            Shape::Cancel => self.word_place(text).is_some(),
            Shape::Restart => self.word_place(text).is_some(),
            Shape::Kind => self.word_place(text).is_some(),
            Shape::BatchKind => self.word_place(text).is_some(),
        }
    }
}

/// 1 to 4096 bytes.
fn is_edge(text: &str) -> bool
    ensures { result ≡ is_between 1 4096 (length text.now) }
{
    !text.is_empty() && text.len() <= 4096
}

fn are_name_bytes(text: &[u8]) -> bool
    ensures { result ≡ list_all is_name_byte text.now }
{
    text.iter().all(|b| 97 <= *b && *b <= 122 || 48 <= *b && *b <= 57 || *b == 95 || *b == 45)
}

/// 1 to 32 lower-case letters, digits, `_` and `-`, and no name of a group.
fn is_name(text: &str) -> bool
    ensures { result ≡ is_name_of text.now }
{
    1 <= text.len()
        && text.len() <= 32
        && are_name_bytes(text.as_bytes())
        && !(text == "processors" || text == "supervisor")
}

fn are_printable(text: &[u8]) -> bool
    ensures { result ≡ list_all (is_between 0x21 0x7e) text.now }
{
    text.iter().all(|b| 0x21 <= *b && *b <= 0x7e)
}

fn is_reason_text(text: &[u8]) -> bool
    ensures { result ≡ is_reason (Some text.now) }
{
    1 <= text.len() && text.len() <= 64 && are_printable(text)
}

fn is_rule_text(text: &[u8]) -> bool
    ensures { result ≡ is_some (rule_of [] text.now) }
{
    parse(text).is_some()
}
