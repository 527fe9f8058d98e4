//! Lines and words of a text.

/// How many lines begin so.
pub fn lines_with(text: &str, word: &str) -> usize {
    let mut count: usize = 0;
    for line in text.lines() {
        if line.starts_with(word) {
            count = count.saturating_add(1);
        }
    }
    count
}

/// The piece at this place of the text, or none.
pub fn piece_at(text: &str, between: char, place: usize) -> &str {
    for (at, piece) in text.split(between).enumerate() {
        if at == place {
            return piece;
        }
    }
    ""
}

/// How many pieces the text has.
pub fn pieces_in(text: &str, between: char) -> usize {
    let mut count: usize = 0;
    for _ in text.split(between) {
        count = count.saturating_add(1);
    }
    count
}

/// The sum of the numbers at this place of the lines that begin so.
pub fn sum_of(text: &str, word: &str, place: usize) -> usize {
    let mut sum: usize = 0;
    for line in text.lines() {
        if line.starts_with(word) {
            let number = piece_at(line, ' ', place).parse::<usize>().unwrap_or(0);
            sum = sum.saturating_add(number);
        }
    }
    sum
}

/// Whether the text has this word.
pub fn has_word(text: &str, wanted: &str) -> bool {
    for word in text.split_whitespace() {
        if word == wanted {
            return true;
        }
    }
    false
}

/// Whether the text has a line of this form: the line itself, or its front and its back with `*` between.
pub fn has_line(text: &str, form: &str) -> bool {
    for line in text.lines() {
        if is_of(line, form) {
            return true;
        }
    }
    false
}

fn is_of(line: &str, form: &str) -> bool {
    match form.split_once('*') {
        Some((front, back)) => line.starts_with(front) && line.ends_with(back),
        None => line == form,
    }
}
