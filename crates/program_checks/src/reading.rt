//! The text of a journal as a case gives it: what is read, and whether it is legal.

use super::case::Case;
use journal_reading::{JournalFault, JournalRefusal, PlainRun, read_steps};
use pipe_config::read_topology;
use pipe_journal::Journal;
use pipe_replay::replay_plain;
use pipe_types::step::Step;
use std::alloc::{AllocError, Global};
use std::io;

/// Reads the text of the case with its topology, and writes its first bad line with what is wrong there, or how many steps it
/// has and which of them, from 1, is the first that is not legal.
pub fn run_reading(rt: &HostRuntime, case: &Case) -> io::Result<()> {
    let file = case.text("file");
    let Ok(topology) = read_topology(rt.alloc(), file.as_bytes()) else {
        return println!(rt; "no accepted file");
    };
    match read_steps(rt.alloc(), &topology, case.text("journal").as_bytes()) {
        Ok(read) => tell_read(rt, file, &read),
        Err(refusal) => tell_refused(rt, refusal),
    }
}

fn tell_refused(rt: &HostRuntime, refusal: JournalRefusal) -> io::Result<()> {
    let (line, fault) = (refusal.line, name_of(refusal.fault));
    println!(rt; "line {line}: {fault}")
}

fn name_of(fault: JournalFault) -> &'static str {
    match fault {
        JournalFault::Header => "header",
        JournalFault::Word => "word",
        JournalFault::Number => "number",
        JournalFault::Bytes => "bytes",
        JournalFault::End => "end",
        JournalFault::OutOfMemory => "out of memory",
    }
}

fn tell_read(rt: &HostRuntime, file: &str, read: &Journal) -> io::Result<()> {
    let steps = steps_in(rt.alloc(), read)?;
    let (count, legal) = (steps.len(), legal_steps(rt.alloc(), file, &steps)?);
    let (fault, _) = fault_in_verdict(rt.alloc(), file, steps)?;
    if fault != "" {
        println!(rt; "{count} steps: {fault}")
    } else if legal == count {
        println!(rt; "{count} steps, legal")
    } else {
        let first = legal.saturating_add(1);
        println!(rt; "{count} steps, not legal from step {first} on")
    }
}

/// The steps of the journal, oldest first.
pub fn steps_in(alloc: Global, journal: &Journal) -> Result<Vec<Step>, AllocError> {
    let mut steps = Vec::new(alloc);
    for at in 0..journal.len() {
        steps.push(journal.view(at).to_step(alloc)?)?;
    }
    Ok(steps)
}

/// How many of the steps a run judges legal, one by one, before the first that is not.
fn legal_steps(alloc: Global, file: &str, steps: &Vec<Step>) -> Result<usize, AllocError> {
    let Ok(topology) = read_topology(alloc, file.as_bytes()) else {
        return Ok(0);
    };
    let mut run = match PlainRun::new(alloc, topology) {
        Ok(run) => run,
        Err((_, failed)) => return Err(failed),
    };
    let mut count: usize = 0;
    for step in steps {
        if !run.step(step)? {
            return Ok(count);
        }
        count = count.saturating_add(1);
    }
    Ok(count)
}

/// What is wrong with the verdict on the steps, or nothing, and whether all are legal: the slow machine finds legal as many as the
/// run step by step, and not one more.
pub fn fault_in_verdict(
    alloc: Global,
    file: &str,
    mut steps: Vec<Step>,
) -> Result<(&'static str, bool), AllocError> {
    let legal = legal_steps(alloc, file, &steps)?;
    let whole = legal == steps.len();
    steps.truncate(legal.saturating_add(1));
    if !whole && is_legal(alloc, file, steps.as_slice())? {
        return Ok(("the slow machine finds one more step legal", whole));
    }
    steps.truncate(legal);
    if !is_legal(alloc, file, steps.as_slice())? {
        return Ok(("the slow machine finds fewer steps legal", whole));
    }
    Ok(("", whole))
}

/// Whether the slow machine finds the steps legal.
fn is_legal(alloc: Global, file: &str, steps: &[Step]) -> Result<bool, AllocError> {
    match read_topology(alloc, file.as_bytes()) {
        Ok(topology) => Ok(replay_plain(alloc, &topology, steps)?.is_some()),
        Err(_) => Ok(false),
    }
}
