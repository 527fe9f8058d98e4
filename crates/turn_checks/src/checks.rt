//! The cases, a line each.
//!
//! `jobs SEATS STAGES`: as many workers as seats, each in a thread, do jobs of so many stages, 50 each. It tells whether each
//! stage's job was put out and answered in turn, so often in all, whether each worker's last answer stands where it was when
//! the worker gave it, and how many jobs the tokens that came home were taken along with.
//! `news`: who tells raises the count of news; it tells the count before and after, twice.
//! `both`: two turns are held at once; it tells whether both were at home, and how many steps each journal has.

use crate::logbook::Logbook;
use crate::tokens::Token;
use crate::workers::{run, tell_once, tick_both};
use pipe_journal::{Journal, StepView};
use pipeline_turn::Turn;
use std::alloc::{AllocError, Global};
use std::io;
use std::sync::Wait;
use std::sync::atomic::{AtomicU64, Ordering};
use std::thread::Threads;
use std::time::Duration;

/// How many jobs each worker does.
const ROUNDS: u32 = 50;

/// Runs the case of the line. A run may start threads and wait, which takes a handle of its own.
pub fn run_case<R: Threads + Wait + Sync>(
    rt: &HostRuntime,
    waits: &R,
    line: &str,
) -> io::Result<()> {
    if line == "news" {
        tell_news(rt, waits)
    } else if line == "both" {
        hold_both(rt)
    } else {
        let (seats, stages) = numbers_in(line);
        do_jobs(rt, waits, seats, stages)
    }
}

/// The two numbers of a line `jobs SEATS STAGES`, or 0.
fn numbers_in(line: &str) -> (u16, u16) {
    let numbers = line.strip_prefix("jobs ").unwrap_or("");
    let (seats, stages) = numbers.split_once(' ').unwrap_or(("", ""));
    (number(seats), number(stages))
}

fn number(text: &str) -> u16 {
    text.parse::<u16>().unwrap_or(0)
}

/// The workers of a line `jobs`.
fn do_jobs<R: Threads + Wait + Sync>(
    rt: &HostRuntime,
    waits: &R,
    seats: u16,
    stages: u16,
) -> io::Result<()> {
    if seats == 0 {
        return println!(rt; "no seat");
    }
    let jobs = ROUNDS * u32::from(seats);
    let lengths = zeros(rt.alloc(), seats)?;
    let mut book = Logbook::new(rt.alloc(), stages)?;
    book.journal.reserve(2 * jobs)?;
    match run(waits, rt.alloc(), book, seats, ROUNDS, lengths.as_slice()) {
        Ok(book) => tell_jobs(rt, seats, &book, lengths.as_slice()),
        Err((_, refused)) => Err(refused.into()),
    }
}

/// A place for each seat.
fn zeros(alloc: Global, seats: u16) -> Result<Vec<AtomicU64>, AllocError> {
    let mut lengths = Vec::new(alloc);
    for _ in 0..seats {
        lengths.push(AtomicU64::new(0))?;
    }
    Ok(lengths)
}

/// Writes what came of the workers.
fn tell_jobs(
    rt: &HostRuntime,
    seats: u16,
    book: &Logbook,
    lengths: &[AtomicU64],
) -> io::Result<()> {
    let jobs = u64::from(ROUNDS * u32::from(seats));
    let stages = book.tokens.len();
    let whole = is_whole(&book.journal, jobs);
    let kept = is_kept(&book.journal, lengths);
    println!(rt; "jobs {seats} {stages}: whole {whole}, kept {kept}")?;
    match jobs_done(book.tokens.as_slice()) {
        Some(done) => println!(rt; "all tokens are home, with {done} jobs"),
        None => println!(rt; "a token is away"),
    }
}

/// Whether each stage's post is put out and answered in turn, so often in all, and none is out at the end.
fn is_whole(journal: &Journal, jobs: u64) -> bool {
    let mut answered = 0u64;
    let mut out = [false; 16];
    for at in 0..journal.len() {
        match journal.view(at) {
            StepView::Fetch { stage, .. } if stage.0 < 16 => {
                let at = usize::from(stage.0);
                if out[at] {
                    return false;
                }
                out[at] = true;
            }
            StepView::Quiet { stage } if stage.0 < 16 => {
                let at = usize::from(stage.0);
                if !out[at] {
                    return false;
                }
                out[at] = false;
                answered = answered.saturating_add(1);
            }
            _ => return false,
        }
    }
    for at in 0..16 {
        if out[at] {
            return false;
        }
    }
    answered == jobs
}

/// Whether each worker's last answer stands where it was when the worker gave it, and the last of them at the end.
fn is_kept(journal: &Journal, lengths: &[AtomicU64]) -> bool {
    let mut before = 0u64;
    for length in lengths {
        let last = length.load(Ordering::SeqCst).saturating_sub(1);
        if journal.len() <= last {
            return false;
        }
        match journal.view(last) {
            StepView::Quiet { .. } => {}
            _ => return false,
        }
        before = before.max(last);
    }
    before.saturating_add(1) == journal.len()
}

/// How many jobs were done with the tokens, all of which are there.
fn jobs_done(tokens: &[Option<Token>]) -> Option<u64> {
    let mut done = 0u64;
    for token in tokens {
        match token {
            Some(token) => done = done.saturating_add(token.jobs),
            None => return None,
        }
    }
    Some(done)
}

/// The count of news, before and after a seat told of some.
fn tell_news<R: Wait>(rt: &HostRuntime, waits: &R) -> io::Result<()> {
    let book = Logbook::new(rt.alloc(), 1)?;
    let (turn, mut seat) = match Turn::new(rt.alloc(), book, 1) {
        Ok(made) => made,
        Err((_, refused)) => return Err(refused.into()),
    };
    let first = tell_once(&turn, &mut seat);
    turn.wait(waits, 0);
    let second = tell_once(&turn, &mut seat);
    turn.wait_for(waits, 1, Duration::from_secs(1));
    let _ = turn.finish(seat);
    write_news(rt, first)?;
    write_news(rt, second)
}

fn write_news(rt: &HostRuntime, told: Option<(u32, u32)>) -> io::Result<()> {
    match told {
        Some((before, after)) => println!(rt; "news {before}, then {after}"),
        None => println!(rt; "away"),
    }
}

/// Two turns at once.
fn hold_both(rt: &HostRuntime) -> io::Result<()> {
    let first = Logbook::new(rt.alloc(), 1)?;
    let second = Logbook::new(rt.alloc(), 1)?;
    let (first, mut mine) = match Turn::new(rt.alloc(), first, 1) {
        Ok(made) => made,
        Err((_, refused)) => return Err(refused.into()),
    };
    match Turn::new(rt.alloc(), second, 1) {
        Ok((second, mut theirs)) => {
            let noted = tick_both(&first, &mut mine, &second, &mut theirs, 7);
            let book = first.finish(mine);
            let other = second.finish(theirs);
            let (mine, theirs) = (book.journal.len(), other.journal.len());
            println!(rt; "both at home {noted}, steps {mine} and {theirs}")
        }
        Err((_, refused)) => {
            let _ = first.finish(mine);
            Err(refused.into())
        }
    }
}
