//! The words and numbers of a rule's text.

ghost use Rattle.std.specs.{Prelude.{◌≡◌, ℕ, ◌-◌, ◌^◌, ◌≤◌, ◌==◌, min, option_map, position}, List.{list_all}};
ghost use Rattle.pipe_types.specs.Sound.{is_between};
ghost use Rattle.config_rule.specs.RuleText.{at_space, digits_number, is_decimal, decimal_in as decimal_in_of};

fn first_space(text: &[u8]) -> Option<usize>
    ensures { result ≡ position (λ b. b == 32) text.now }
{
    text.iter().position(|b| *b == b' ')
}

/// What stands before the first space and what stands after it.
pub fn at_space(text: &[u8]) -> Option<(&[u8], &[u8])>
    ensures { option_map (λ p. (p.0.now, p.1.now)) result ≡ at_space text.now }
{
    match first_space(text) {
        Some(i) => Some((&text[..i], &text[i + 1..])),
        None => None,
    }
}

fn are_digits(text: &[u8]) -> bool
    ensures { result ≡ list_all (is_between 48 57) text.now }
{
    text.iter().all(|b| 48 <= *b && *b <= 57)
}

/// Whether the text is of digits, without a leading zero.
fn is_decimal_text(text: &[u8]) -> bool
    ensures { result ≡ is_decimal text.now }
{
    are_digits(text) && !text.is_empty() && (text.len() == 1 || text[0] != 48)
}

/// The number that digits spell, or `u32::MAX` for a larger one.
fn capped_number(text: &[u8]) -> u32
    ensures { result ≡ min (digits_number text.now) (2 ^ 32 - 1) }
{
    let mut number: u32 = 0;
    for b in text {
        number = number
            .saturating_mul(10)
            .saturating_add(u32::from(b.saturating_sub(48)));
    }
    number
}

/// The number that the text spells in decimal, if it lies in the range.
pub fn decimal_in(low: u32, high: u32, text: &[u8]) -> Option<u32>
    requires { high ≤ 1000000 }
    ensures { result ≡ decimal_in_of low high text.now }
{
    if !is_decimal_text(text) {
        return None;
    }
    let number = capped_number(text);
    if low <= number && number <= high {
        Some(number)
    } else {
        None
    }
}
