//! The lines of a text, and the first word of a line.

ghost use Rattle.std.specs.{Prelude.{◌≡◌, ◌<◌, ◌++◌, [], ◌∷◌, length, IfSome, IfNone, bytes_eq}, List.{slice_split}};
ghost use Rattle.line_reading.specs.Reading.{is_at};
ghost use Rattle.reading_laws.specs.Text.{header, lines_of};

use memchr::memchr;

/// What stands in front of a byte, and what stands behind it.
#[derive(Clone, Copy)]
pub struct Cut<'a> {
    pub front: &'a [u8],
    pub rest: &'a [u8],
}

/// The text cut at the first such byte, where there is one.
pub(crate) fn cut_at(text: &[u8], at: u8) -> Option<Cut<'_>>
    ensures some { IfSome result (λ cut. slice_split (is_at at) text.now ≡ cut.front.now ∷ slice_split (is_at at) cut.rest.now) }
    ensures parts { IfSome result (λ cut. text.now ≡ cut.front.now ++ at ∷ cut.rest.now) }
    ensures front { IfSome result (λ cut. slice_split (is_at at) cut.front.now ≡ cut.front.now ∷ []) }
    ensures shorter { IfSome result (λ cut. length cut.rest.now < length text.now) }
    ensures none { IfNone result (slice_split (is_at at) text.now ≡ text.now ∷ []) }
{
    match memchr(at, text) {
        Some(found) => Some(Cut {
            front: &text[..found],
            rest: &text[found + 1..],
        }),
        None => None,
    }
}

/// The first line of the text, without its LF, and the text behind it. None where no LF ends a line.
pub fn first_line(text: &[u8]) -> Option<Cut<'_>>
    ensures some { IfSome result (λ cut. lines_of text.now ≡ cut.front.now ∷ lines_of cut.rest.now) }
    // It ends at the first LF.
    ensures parts { IfSome result (λ cut. text.now ≡ cut.front.now ++ 10 ∷ cut.rest.now) }
    ensures unended { IfSome result (λ cut. lines_of cut.front.now ≡ []) }
    ensures shorter { IfSome result (λ cut. length cut.rest.now < length text.now) }
    ensures none { IfNone result (lines_of text.now ≡ []) }
{
    cut_at(text, b'\n')
}

/// Whether it is the line that a text begins with.
pub fn is_header(line: &[u8]) -> bool
    ensures { result ≡ bytes_eq line.now header }
{
    is_same(line, b"journal 1")
}

/// Whether the two are the same.
pub(crate) fn is_same(line: &[u8], name: &[u8]) -> bool
    ensures { result ≡ bytes_eq line.now name.now }
{
    line == name
}
