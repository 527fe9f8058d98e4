//! Journals that are written and read back, as standard input lists them, and what each reading came to.
//!
//! A line `case TITLE` begins a journal. Each other line is an act: a step's line (`steps.rt`) adds that step; `three STEP`
//! keeps room for three such steps and adds them to it; `length` tells how many steps there are; `get AT` gives the line of the
//! step at that place, from 0; `record AT ITEM` and `reply AT ITEM` give what is lent of it; `text` gives the journal's text.
//! `read LINE` reads the line of a journal's text; `payload N` reads one with a payload of N bytes (`readings.rt`).
#![tactic(auto)]

mod readings;
mod reads;
mod steps;
mod words;

use pipe_journal::Journal;
use pipe_types::step::Step;
use std::io;
use steps::step_of;
use words::{halves, long};

fn main(rt: HostRuntime) -> io::Result<()> {
    let mut journal = Journal::new(rt.alloc());
    for line in rt.lines(rt.alloc()) {
        let line = line?;
        let (word, rest) = halves(line.as_str());
        if word == "case" {
            journal = Journal::new(rt.alloc());
            println!(rt; "== {rest}")?;
        } else {
            act(&rt, &mut journal, word, rest)?;
        }
    }
    Ok(())
}

fn act(rt: &HostRuntime, journal: &mut Journal, word: &str, rest: &str) -> io::Result<()> {
    match word {
        "three" => add_three(rt, journal, rest),
        "length" => reads::tell_length(rt, journal),
        "get" => reads::tell_step(rt, journal, rest),
        "record" => reads::tell_record(rt, journal, rest),
        "reply" => reads::tell_reply(rt, journal, rest),
        "text" => reads::tell_text(rt, journal),
        "read" => readings::tell_reading(rt, rest),
        "payload" => readings::tell_payload(rt, long(rest, 0)),
        _ => add(rt, journal, word, rest),
    }
}

fn add(rt: &HostRuntime, journal: &mut Journal, word: &str, rest: &str) -> io::Result<()> {
    match step_of(rt.alloc(), word, rest)? {
        Some(step) => match journal.push(step) {
            Ok(()) => Ok(()),
            Err((_, error)) => Err(error.into()),
        },
        None => println!(rt; "no step: {word}"),
    }
}

fn add_three(rt: &HostRuntime, journal: &mut Journal, line: &str) -> io::Result<()> {
    let (word, rest) = halves(line);
    let first = step_of(rt.alloc(), word, rest)?;
    let second = step_of(rt.alloc(), word, rest)?;
    let third = step_of(rt.alloc(), word, rest)?;
    match (first, second, third) {
        (Some(first), Some(second), Some(third)) => add_to_room(journal, first, second, third),
        _ => println!(rt; "no step: {word}"),
    }
}

fn add_to_room(journal: &mut Journal, first: Step, second: Step, third: Step) -> io::Result<()> {
    journal.reserve(3)?;
    journal.push_spare(first);
    journal.push_spare(second);
    journal.push_spare(third);
    Ok(())
}
