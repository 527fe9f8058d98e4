//! Sources that a case lists, a line for each: the acts, a colon and the words of its lines. A `/` at the end takes the end of
//! the last line. The lines are those words, each behind the place of its source and its own number there.

ghost use Rattle.std.specs.Prelude.{◌≡◌, ◌<◌, ◌+◌, ℕ, List, length, IfOk};
ghost use Rattle.mem_edges.specs.{MemSource.{IsUnread}, MemEdges.{IsNew}};
ghost use Rattle.pipe_edges.specs.declared.edges.EdgeKind.{EdgeKind};

use super::case::Case;
use super::outside::source_script;
use super::texts::{piece_at, pieces_in};
use mem_edges::{MemEdges, MemSource};
use pipe_edges::Edges;
use pipe_types::bytes::{Bytes, Text};
use pipe_types::step::{LateAnswer, Step};
use std::alloc::{AllocError, Global};

/// One of the sources.
#[derive(Clone, Copy)]
struct Listed<'a> {
    acts: &'a str,
    words: &'a str,
    has_last_end: bool,
}

/// How many sources the case lists.
pub fn streams_in(case: &Case) -> usize {
    let lines = case.text("streams");
    pieces_in(lines.strip_suffix('\n').unwrap_or(lines), '\n').saturating_sub(usize::from(
        lines.is_empty(),
    ))
}

fn listed_at<'a>(case: &'a Case, at: usize) -> Listed<'a> {
    let line = piece_at(case.text("streams"), '\n', at);
    let (acts, words) = line.split_once(':').unwrap_or((line, ""));
    match words.strip_suffix('/') {
        Some(words) => Listed {
            acts,
            words,
            has_last_end: false,
        },
        None => Listed {
            acts,
            words,
            has_last_end: true,
        },
    }
}

/// The line of this number of the source at this place, if it has one.
fn line_at(alloc: Global, case: &Case, at: usize, number: usize) -> Result<String, AllocError> {
    let words = listed_at(case, at).words;
    for (place, word) in words.split_whitespace().enumerate() {
        if place == number {
            return format!(in alloc; "{at} {number} {word}");
        }
    }
    Ok(String::new(alloc))
}

fn count_at(case: &Case, at: usize) -> usize {
    let mut count: usize = 0;
    for _ in listed_at(case, at).words.split_whitespace() {
        count = count.saturating_add(1);
    }
    count
}

/// The name of a source is one byte longer than that before it.
fn stream_name(alloc: Global, at: usize) -> Result<Text, AllocError>
    ensures { IfOk result (λ t. length t ≡ at + 6) }
{
    let mut name = String::from_str(alloc, "mem:ss")?;
    for more in 0..at {
        name.push_str("s")?;
    }
    Ok(Text::from_string(name))
}

/// The topology file of the case, in which the names of the sources stand for `#`.
pub fn file_of(alloc: Global, case: &Case) -> Result<String, AllocError> {
    let file = case.text("file");
    let count = streams_in(case);
    let mut whole = String::new(alloc);
    match file.split_once('#') {
        Some((front, back)) if count > 0 => {
            whole.push_str(front)?;
            for at in 0..count {
                whole.push_str(if at == 0 { "" } else { "," })?;
                whole.push_str(stream_name(alloc, at)?.as_str())?;
            }
            whole.push_str(back)?;
        }
        _ => whole.push_str(file)?,
    }
    Ok(whole)
}

/// Adds the sources that the case lists.
pub fn add_streams(alloc: Global, case: &Case, mut edges: MemEdges) -> Result<MemEdges, AllocError>
    requires { (name : List ℕ) → IsNew edges EdgeKind.Source name }
    ensures { IfOk result (λ edges. (name : List ℕ) → length name < 6 → IsNew edges EdgeKind.Source name) }
{
    for at in 0..streams_in(case) {
        let source = stream_of(alloc, case, at)?;
        edges.add_source(stream_name(alloc, at)?, source)?;
    }
    Ok(edges)
}

fn stream_of(alloc: Global, case: &Case, at: usize) -> Result<MemSource, AllocError>
    ensures { IfOk result IsUnread }
{
    let text = text_at(alloc, case, at)?;
    let bytes = Bytes::from_vec(Vec::from_slice(alloc, text.as_str().as_bytes())?);
    let script = source_script(alloc, listed_at(case, at).acts)?;
    Ok(MemSource::new(bytes, script))
}

fn text_at(alloc: Global, case: &Case, at: usize) -> Result<String, AllocError> {
    let mut text = String::new(alloc);
    let count = count_at(case, at);
    for number in 0..count {
        text.push_str(line_at(alloc, case, at, number)?.as_str())?;
        if number < count.saturating_sub(1) || listed_at(case, at).has_last_end {
            text.push_str("\n")?;
        }
    }
    Ok(text)
}

/// Whether each of the sources can be opened again.
pub fn are_streams_free(
    alloc: Global,
    case: &Case,
    edges: &mut MemEdges,
) -> Result<bool, AllocError> {
    for at in 0..streams_in(case) {
        if edges.open_source(&stream_name(alloc, at)?).is_err() {
            return Ok(false);
        }
    }
    Ok(true)
}

/// What does not hold of these, or nothing: the records with the place of a source are, in order, the first of its lines; all of
/// them where the run came to the end of its sources.
pub fn fault_in_streams(
    alloc: Global,
    case: &Case,
    whole: bool,
    steps: &[Step],
) -> Result<&'static str, AllocError> {
    let mut given = vec![in alloc; 0; streams_in(case)]?;
    for step in steps {
        let records = match step {
            Step::Accept { records, .. } => records,
            Step::Late {
                answer: LateAnswer::Records(records),
                ..
            } => records,
            _ => continue,
        };
        for record in records.as_slice() {
            if !is_next(alloc, case, record, &mut given)? {
                return Ok("a record that is not the next line of its source");
            }
        }
    }
    for at in 0..given.len() {
        if whole && given[at] != count_at(case, at) {
            return Ok("a source that is not read to its end");
        }
    }
    Ok("")
}

/// Whether the record is the next line of the source whose place it has; it counts as given then.
fn is_next(
    alloc: Global,
    case: &Case,
    record: &Bytes,
    given: &mut Vec<usize>,
) -> Result<bool, AllocError> {
    let line = str::from_utf8(record.as_slice()).unwrap_or("");
    let (place, _) = line.split_once(' ').unwrap_or((line, ""));
    match place.parse::<usize>() {
        Ok(at) if at < given.len() => {
            let next = line_at(alloc, case, at, given[at])?;
            given[at] = given[at].saturating_add(1);
            Ok(next.as_str() == line)
        }
        _ => Ok(false),
    }
}
