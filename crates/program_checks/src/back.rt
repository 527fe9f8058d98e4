//! Whether the text of each run's journal is read back as that journal, and what comes of the text where it is changed.

use super::calls::call;
use super::case::Case;
use super::changes::{Change, Spoil, Spot, changed, front_of, spoilt};
use super::judge::parts_of;
use super::made::{mark, tell_seen, unseen};
use super::making::case_of;
use super::outside::{shown, world_of};
use super::reading::{fault_in_verdict, steps_in};
use journal_reading::{JournalFault, JournalRefusal, read_steps};
use journal_texts::lines::journal_text;
use pipe_config::read_topology;
use pipe_journal::{Journal, Replies, ReplyView};
use std::alloc::{AllocError, Global};
use std::io;
use std::sync::Wait;
use std::thread::Threads;

/// As many workers as a run has at most.
const MOST_WORKERS: u32 = 16;

static CHANGES: [Change; 4] = [
    Change::Bit,
    Change::Dropped,
    Change::Doubled,
    Change::Swapped,
];

static SPOILS: [Spoil; 4] = [Spoil::Head, Spoil::Byte, Spoil::End, Spoil::Count];

/// How many texts came out as they are to.
#[derive(Clone, Copy)]
struct Tally {
    read: u32,
    spoilt: u32,
    changed: u32,
}

/// What came of a text: what is wrong, or nothing, and what became of it.
#[derive(Clone, Copy)]
struct Found {
    fault: &'static str,
    end: &'static str,
}

/// A run's text: the topology's file, and the lines of the journal without its end line.
#[derive(Clone, Copy)]
struct RunText<'a> {
    file: &'a str,
    lines: &'a [&'a str],
    spot: Spot,
}

/// Runs so many rows, from 0, of the rule that the case names, on 1 to 16 workers in turn, and reads the text of each back. Of each
/// text every way to spoil it and every way to change it is tried at one of its lines. What is wrong with a row is written, then
/// how many texts were as they are to be, and of each form that the case looks for whether there was one: a line of an output,
/// or a way and what became of the text, as `dropped refused`.
pub fn run_back<R: Threads + Wait + Sync>(
    rt: &HostRuntime,
    waits: &R,
    rules: &Case,
    count: &str,
) -> io::Result<()> {
    let rows = count.parse::<u32>().unwrap_or(0);
    let mut tally = Tally {
        read: 0,
        spoilt: 0,
        changed: 0,
    };
    let mut seen = unseen(rt.alloc())?;
    for row in 0..rows {
        run_row(rt, waits, rules, row, &mut tally, &mut seen)?;
    }
    let (read, spoilt, changed) = (tally.read, tally.spoilt, tally.changed);
    println!(rt;
        "{rows} runs: {read} texts read back, {spoilt} spoilt ones refused, {changed} changed ones judged alike"
    )?;
    tell_seen(rt, rules.text("look"), &seen)
}

fn run_row<R: Threads + Wait + Sync>(
    rt: &HostRuntime,
    waits: &R,
    rules: &Case,
    row: u32,
    tally: &mut Tally,
    seen: &mut Vec<bool>,
) -> io::Result<()> {
    let alloc = rt.alloc();
    let case = case_of(alloc, rules, rules.text("rule"), row)?;
    let workers = (row % MOST_WORKERS).saturating_add(1);
    let words = format!(in alloc; "run t --steps --workers {workers}")?;
    let mut world = world_of(alloc, &case)?;
    let end = call(waits, alloc, &case, words.as_str(), &mut world)?;
    let out = shown(&world.out);
    mark(rules.text("look"), out, seen);
    let fault = fault_in_same(alloc, case.text("file"), out, &end.journal)?;
    if fault == "" {
        tally.read = tally.read.saturating_add(1);
    } else {
        println!(rt; "row {row}: {fault}")?;
    }
    change_row(rt, rules, row, case.text("file"), out, tally, seen)
}

/// Spoils and changes the text at a line and a byte that the row tells.
fn change_row(
    rt: &HostRuntime,
    rules: &Case,
    row: u32,
    file: &str,
    out: &str,
    tally: &mut Tally,
    seen: &mut Vec<bool>,
) -> io::Result<()> {
    let Some(told) = parts_of(out) else {
        return println!(rt; "row {row}: no journal");
    };
    let lines: Vec<&str> = told.journal.lines().collect(rt.alloc())?;
    let steps = lines.len().saturating_sub(1).max(1);
    let spot = Spot {
        line: (row as usize % steps).saturating_add(1),
        byte: row as usize % 11,
    };
    let text = RunText {
        file,
        lines: lines.as_slice(),
        spot,
    };
    spoil_all(rt, row, text, tally)?;
    change_all(rt, rules, row, text, tally, seen)
}

fn spoil_all(rt: &HostRuntime, row: u32, text: RunText<'_>, tally: &mut Tally) -> io::Result<()> {
    for spoil in &SPOILS {
        let fault = fault_in_spoilt(rt.alloc(), text, *spoil)?;
        if fault == "" {
            tally.spoilt = tally.spoilt.saturating_add(1);
        } else {
            println!(rt; "row {row}: {fault}")?;
        }
    }
    Ok(())
}

fn change_all(
    rt: &HostRuntime,
    rules: &Case,
    row: u32,
    text: RunText<'_>,
    tally: &mut Tally,
    seen: &mut Vec<bool>,
) -> io::Result<()> {
    for change in &CHANGES {
        let found = try_changed(rt.alloc(), text, *change)?;
        let (name, end, fault) = (change.name(), found.end, found.fault);
        if fault == "" {
            tally.changed = tally.changed.saturating_add(1);
        } else {
            println!(rt; "row {row}: {name}: {fault}")?;
        }
        let said = format!(in rt.alloc(); "{name} {end}")?;
        mark(rules.text("look"), said.as_str(), seen);
    }
    Ok(())
}

/// What is read of the output is the journal, with the messages that the text does not name.
fn fault_in_same(
    alloc: Global,
    file: &str,
    out: &str,
    journal: &Journal,
) -> Result<&'static str, AllocError> {
    let Ok(topology) = read_topology(alloc, file.as_bytes()) else {
        return Ok("no accepted file");
    };
    let Ok(read) = read_steps(alloc, &topology, out.as_bytes()) else {
        return Ok("not read back");
    };
    let (back, text) = (journal_text(alloc, &read)?, journal_text(alloc, journal)?);
    if back.as_slice() != text.as_slice() {
        Ok("read back as another text")
    } else if !out.as_bytes().starts_with(text.as_slice()) {
        Ok("no output of this journal")
    } else if !are_of_same_messages(&read, journal) {
        Ok("read back with other messages")
    } else {
        Ok("")
    }
}

/// Whether the replies of the two are to the same messages, at each place of each step.
fn are_of_same_messages(read: &Journal, journal: &Journal) -> bool {
    if read.len() != journal.len() {
        return false;
    }
    for at in 0..journal.len() {
        if at >= read.len() || !are_to_same(read.view(at).replies(), journal.view(at).replies()) {
            return false;
        }
    }
    true
}

fn are_to_same(read: Replies<'_>, replies: Replies<'_>) -> bool {
    for at in 0..replies.len() {
        if !is_to_same(read.get(at), replies.item(at)) {
            return false;
        }
    }
    read.len() == replies.len()
}

fn is_to_same(read: Option<ReplyView<'_>>, reply: ReplyView<'_>) -> bool {
    match (read, reply) {
        (Some(ReplyView::Pass(one)), ReplyView::Pass(other)) => {
            one.no == other.no && one.producer == other.producer
        }
        (Some(ReplyView::Pass(_)) | None, _) | (_, ReplyView::Pass(_)) => false,
        (Some(_), _) => true,
    }
}

/// The spoilt text is refused at the line that is spoilt, and for what is wrong with it.
fn fault_in_spoilt(
    alloc: Global,
    text: RunText<'_>,
    spoil: Spoil,
) -> Result<&'static str, AllocError> {
    let Ok(topology) = read_topology(alloc, text.file.as_bytes()) else {
        return Ok("no accepted file");
    };
    let bad = spoilt(alloc, text.lines, spoil, text.spot)?;
    match read_steps(alloc, &topology, bad.as_slice()) {
        Ok(_) => Ok("a spoilt text is read"),
        Err(refusal) => {
            if is_for(refusal, spoil, text) {
                Ok("")
            } else {
                Ok("a spoilt text is refused for something else")
            }
        }
    }
}

fn is_for(refusal: JournalRefusal, spoil: Spoil, text: RunText<'_>) -> bool {
    let line = match spoil {
        Spoil::Head => 1,
        Spoil::Byte => text.spot.line.saturating_add(1),
        Spoil::End | Spoil::Count => text.lines.len().saturating_add(1),
    };
    let is_fault = match spoil {
        Spoil::Head => matches!(refusal.fault, JournalFault::Header),
        Spoil::Byte => is_of_step(refusal.fault),
        Spoil::End | Spoil::Count => matches!(refusal.fault, JournalFault::End),
    };
    is_fault && refusal.line == line as u64
}

/// Whether it is a fault of the line of a step.
fn is_of_step(fault: JournalFault) -> bool {
    matches!(
        fault,
        JournalFault::Word | JournalFault::Number | JournalFault::Bytes
    )
}

/// What comes of the text with the change: it is refused at its first bad line, or its steps are legal up to the one at which both
/// machines find it not legal, or all of them.
fn try_changed(alloc: Global, text: RunText<'_>, change: Change) -> Result<Found, AllocError> {
    let Ok(topology) = read_topology(alloc, text.file.as_bytes()) else {
        return Ok(Found {
            fault: "no accepted file",
            end: "",
        });
    };
    let bytes = changed(alloc, text.lines, change, text.spot)?;
    match read_steps(alloc, &topology, bytes.as_slice()) {
        Ok(read) => try_read(alloc, text.file, &read, bytes.as_slice()),
        Err(refusal) => {
            let fault = fault_in_refusal(alloc, text, bytes.as_slice(), refusal)?;
            Ok(Found {
                fault,
                end: "refused",
            })
        }
    }
}

fn try_read(alloc: Global, file: &str, read: &Journal, bytes: &[u8]) -> Result<Found, AllocError> {
    let text = journal_text(alloc, read)?;
    if text.as_slice() != bytes {
        return Ok(Found {
            fault: "read as another text",
            end: "",
        });
    }
    let (fault, legal) = fault_in_verdict(alloc, file, steps_in(alloc, read)?)?;
    let end = if legal { "legal" } else { "illegal" };
    Ok(Found { fault, end })
}

/// No line in front of the refused one is bad, nor is one in front of the change refused.
fn fault_in_refusal(
    alloc: Global,
    text: RunText<'_>,
    bytes: &[u8],
    refusal: JournalRefusal,
) -> Result<&'static str, AllocError> {
    let Ok(topology) = read_topology(alloc, text.file.as_bytes()) else {
        return Ok("no accepted file");
    };
    let whole = str::from_utf8(bytes).unwrap_or("");
    let lines: Vec<&str> = whole.lines().collect(alloc)?;
    let good = front_of(
        alloc,
        lines.as_slice(),
        refusal.line.saturating_sub(1) as usize,
    )?;
    if !is_of_step(refusal.fault) && !matches!(refusal.fault, JournalFault::End) {
        Ok("refused for something else")
    } else if refusal.line <= text.spot.line as u64 {
        Ok("refused in front of the change")
    } else if read_steps(alloc, &topology, good.as_slice()).is_err() {
        Ok("refused behind the first bad line")
    } else {
        Ok("")
    }
}
