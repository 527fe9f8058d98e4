//! Calls of the program over objects in memory, as standard input lists them, and what each came to.
//!
//! A case begins with its title and is lines that give it texts under names (`case.rt`). A line `call WORDS` then calls
//! the program with these words, `own N` runs callbacks of one's own on N workers, `handlers N` runs the lines of the case with
//! N handlers that pass all, `plain N` with N callbacks that write plain text, and `made N WORDS` calls the program on so many
//! topologies that rules of the case make (`making.rt`) and has the slow machine judge them. `back N` reads the texts of the
//! journals of such runs back, and `read` the text that the case gives (`back.rt`, `reading.rt`). `lengths` runs the topology of the
//! case and looks at the journals that its watch is shown (`lengths.rt`).
#![tactic(auto)]

mod back;
mod calls;
mod case;
mod changes;
mod judge;
mod lengths;
mod made;
mod making;
mod meets;
mod outside;
mod own;
mod rates;
mod reading;
mod slow;
mod streams;
mod texts;

use case::{Case, halves};
use std::io;
use std::sync::Wait;
use std::thread::Threads;

fn main(rt: HostRuntime) -> io::Result<()> {
    let mut case = Case::new(rt.alloc());
    for line in rt.lines(rt.alloc()) {
        let line = line?;
        obey(&rt, &rt, &mut case, line.as_str())?;
    }
    Ok(())
}

// A run may start threads and wait, which takes a handle of its own.
fn obey<R: Threads + Wait + Sync>(
    rt: &HostRuntime,
    waits: &R,
    case: &mut Case,
    line: &str,
) -> io::Result<()> {
    let (word, rest) = halves(line);
    if word == "call" {
        calls::run_call(rt, waits, case, rest)
    } else if word == "own" {
        own::run_own(rt, waits, case, rest)
    } else if word == "handlers" {
        own::run_passing(rt, waits, case, rest)
    } else if word == "plain" {
        own::run_plain_lines(rt, waits, case, rest)
    } else if word == "made" {
        made::run_made(rt, waits, case, rest)
    } else if word == "back" {
        back::run_back(rt, waits, case, rest)
    } else if line == "lengths" {
        lengths::run_lengths(rt, waits, case)
    } else if line == "read" {
        reading::run_reading(rt, case)
    } else if word == "case" {
        case.begin();
        println!(rt; "\n== {rest}")
    } else {
        case.read(line)?;
        Ok(())
    }
}
