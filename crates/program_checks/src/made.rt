//! Calls of the program on cases that rules make, each judged.

use super::calls::{call, is_home};
use super::case::{Case, halves};
use super::judge::Came;
use super::making::case_of;
use super::outside::{World, held_under, shown, world_of};
use super::reading::steps_in;
use super::slow::fault_in;
use super::texts::{has_line, has_word, lines_with};
use pipe_types::step::Step;
use std::alloc::{AllocError, Global};
use std::io;
use std::sync::Wait;
use std::thread::Threads;

/// More forms than a case looks for.
const FORMS: usize = 32;

/// Calls the program on so many rows, from 0, of the rule that the case names, and writes what is wrong with them, and of each
/// form of lines that the case looks for whether one of them wrote such a line.
pub fn run_made<R: Threads + Wait + Sync>(
    rt: &HostRuntime,
    waits: &R,
    rules: &Case,
    line: &str,
) -> io::Result<()> {
    let (count, words) = halves(line);
    let rows = count.parse::<u32>().unwrap_or(0);
    let mut seen = unseen(rt.alloc())?;
    for row in 0..rows {
        run_row(rt, waits, rules, row, words, &mut seen)?;
    }
    println!(rt; "{words}: {rows} rows")?;
    tell_seen(rt, rules.text("look"), &seen)
}

/// No form is seen yet.
pub fn unseen(alloc: Global) -> Result<Vec<bool>, AllocError> {
    vec![in alloc; false; FORMS]
}

fn run_row<R: Threads + Wait + Sync>(
    rt: &HostRuntime,
    waits: &R,
    rules: &Case,
    row: u32,
    words: &str,
    seen: &mut Vec<bool>,
) -> io::Result<()> {
    let case = case_of(rt.alloc(), rules, rules.text("rule"), row)?;
    let mut world = world_of(rt.alloc(), &case)?;
    let (status, steps) = steps_of(waits, rt.alloc(), &case, words, &mut world)?;
    let home = is_home(rt.alloc(), &case, &mut world)?;
    let ended = Ended {
        live: has_word(words, "--live"),
        status,
        home,
    };
    let fault = fault_of(rt.alloc(), rules, &case, &world, ended, &steps)?;
    if fault != "" {
        println!(rt; "row {row}: {fault}")?;
    }
    note(
        rt.alloc(),
        rules.text("look"),
        shown(&world.out),
        status,
        seen,
    )?;
    Ok(())
}

/// Calls the program; the status, and the steps of the journal, oldest first.
fn steps_of<R: Threads + Wait + Sync>(
    waits: &R,
    alloc: Global,
    case: &Case,
    words: &str,
    world: &mut World,
) -> Result<(u8, Vec<Step>), AllocError> {
    let end = call(waits, alloc, case, words, world)?;
    let steps = steps_in(alloc, &end.journal)?;
    Ok((end.status, steps))
}

/// How a run ended: whether its words name a live sink, its status, and whether all that it opened came home.
#[derive(Clone, Copy)]
struct Ended {
    live: bool,
    status: u8,
    home: bool,
}

fn fault_of(
    alloc: Global,
    rules: &Case,
    case: &Case,
    world: &World,
    ended: Ended,
    steps: &Vec<Step>,
) -> Result<&'static str, AllocError> {
    let l = held_under(alloc, &world.edges, "mem:l")?;
    let came = Came {
        out: shown(&world.out),
        err: shown(&world.err),
        s: held_under(alloc, &world.edges, "mem:s")?,
        t: held_under(alloc, &world.edges, "mem:t")?,
        live: if ended.live { Some(l) } else { None },
        status: ended.status,
        home: ended.home,
        steps: steps.len(),
    };
    let calm = rules.text("rule") == "calm";
    fault_in(alloc, calm, case, came, steps.as_slice())
}

/// Marks each form of which there is a line in the output, or that the run was.
fn note(
    alloc: Global,
    forms: &str,
    out: &str,
    status: u8,
    seen: &mut Vec<bool>,
) -> Result<(), AllocError> {
    let more = if lines_with(out, "kill ") < lines_with(out, "restart ") {
        "\ncascade"
    } else {
        ""
    };
    let said = format!(in alloc; "status {status}{more}")?;
    mark(forms, out, seen);
    mark(forms, said.as_str(), seen);
    Ok(())
}

/// Marks each form of which the text has a line.
pub fn mark(forms: &str, text: &str, seen: &mut Vec<bool>) {
    for (at, form) in forms.lines().enumerate() {
        if at < seen.len() && has_line(text, form) {
            seen[at] = true;
        }
    }
}

/// Writes of each form whether it was seen.
pub fn tell_seen(rt: &HostRuntime, forms: &str, seen: &Vec<bool>) -> io::Result<()> {
    for (at, form) in forms.lines().enumerate() {
        let found = at < seen.len() && seen[at];
        let told = if found { "seen" } else { "not seen" };
        println!(rt; "{told}: {form}")?;
    }
    Ok(())
}
