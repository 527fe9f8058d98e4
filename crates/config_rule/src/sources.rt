//! The text of a producer's source.

ghost use Rattle.std.specs.Prelude.{◌≡◌, ◌==◌, option_map, position};
ghost use Rattle.config_rule.specs.SourceText.{at_comma, parts, merged_in, is_merged, are_names, may_be_source};

/// What a merged source begins with.
const MANY: &[u8] = b"many:";

/// The most sources of a merge.
const MOST: u32 = 64;

fn first_comma(text: &[u8]) -> Option<usize>
    ensures { result ≡ position (λ b. b == 44) text.now }
{
    text.iter().position(|b| *b == b',')
}

/// What stands before the first comma and what stands after it.
fn at_comma(text: &[u8]) -> Option<(&[u8], &[u8])>
    ensures { option_map (λ p. (p.0.now, p.1.now)) result ≡ at_comma text.now }
{
    match first_comma(text) {
        Some(i) => Some((&text[..i], &text[i + 1..])),
        None => None,
    }
}

/// Whether these are 2 to 64 names joined by commas, none of them empty.
fn names_fit(names: &[u8]) -> bool
    ensures { result ≡ are_names (parts names.now) }
{
    let mut rest = names;
    for before in 0..MOST {
        match at_comma(rest) {
            Some((name, behind)) => {
                if name.is_empty() {
                    return false;
                }
                rest = behind;
            }
            None => return 1 <= before && !rest.is_empty(),
        }
    }
    false
}

/// Whether the source is a merge: its text begins with `many:`.
pub fn is_merged_source(text: &[u8]) -> bool
    ensures { result ≡ is_merged text.now }
{
    text.starts_with(MANY)
}

/// Whether a producer may have this source: one that begins with `many:` goes on with 2 to 64 names, joined by commas.
pub fn may_be_source(text: &[u8]) -> bool
    ensures { result ≡ may_be_source (merged_in text.now) }
{
    if is_merged_source(text) {
        names_fit(&text[MANY.len()..])
    } else {
        true
    }
}
