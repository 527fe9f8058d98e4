//! The lines of a source, told as text.

ghost use Rattle.std.specs.Prelude.{◌<◌};

use pipe_edges::{ByteSource, Fetched, LineSource, ReadEnd, WriteEnd};
use pipe_types::bytes::BytesList;
use told_text::Told;

/// Tells what fetches of at most so many records come to, until an end: each record with a bar, where a read would wait the
/// mark, and the end.
pub fn story<B: ByteSource + Drop>(told: &mut Told, source: B, most: u32, wait: &str)
    requires { 0 < most }
{
    match LineSource::new(told.alloc, source) {
        Ok(mut lines) => {
            told.add(" ");
            tell_lines(told, &mut lines, most, wait);
        }
        Err(_) => told.add(" no memory"),
    }
}

fn tell_lines<B: ByteSource>(told: &mut Told, lines: &mut LineSource<B>, most: u32, wait: &str)
    requires { 0 < most }
{
    for _ in 0..1000 {
        if !tell_fetch(told, lines, most, wait) {
            break;
        }
    }
}

/// Tells a fetch, and says whether others follow.
pub fn tell_fetch<B: ByteSource>(
    told: &mut Told,
    lines: &mut LineSource<B>,
    most: u32,
    wait: &str,
) -> bool
    requires { 0 < most }
{
    match lines.fetch(most) {
        Ok(fetched) => goes_on(told, &fetched, wait),
        Err(_) => {
            told.cut();
            false
        }
    }
}

fn goes_on(told: &mut Told, fetched: &Fetched, wait: &str) -> bool {
    match fetched {
        Fetched::Records(records) => tell_records(told, records),
        Fetched::NotYet => told.add(wait),
        Fetched::End => told.add("end"),
        Fetched::Fault => told.add("fault"),
        Fetched::TooLong => told.add("long"),
    }
    matches!(fetched, Fetched::Records(_) | Fetched::NotYet)
}

fn tell_records(told: &mut Told, records: &BytesList) {
    for record in records.as_slice() {
        tell_record(told, record.as_slice());
    }
}

// A short record as it stands with a CR as `r`, a long one as the word, and a bar.
fn tell_record(told: &mut Told, record: &[u8]) {
    if record.len() > 9 {
        told.add("long");
    } else {
        for byte in record {
            told.letter(letter_of(*byte));
        }
    }
    told.add("|");
}

fn letter_of(byte: u8) -> char {
    match byte {
        b'\r' => 'r',
        b'a'..=b'z' => byte as char,
        _ => '.',
    }
}

pub fn tell_read(told: &mut Told, read: ReadEnd) {
    match read {
        ReadEnd::Got(n) => {
            told.add(" got:");
            told.number(n as u64);
        }
        ReadEnd::End => told.add(" end"),
        ReadEnd::Failed => told.add(" failed"),
        ReadEnd::Empty => told.add(" empty"),
    }
}

pub fn tell_wrote(told: &mut Told, wrote: WriteEnd) {
    match wrote {
        WriteEnd::Took(n) => {
            told.add(" took:");
            told.number(n as u64);
        }
        WriteEnd::Failed => told.add(" failed"),
    }
}
