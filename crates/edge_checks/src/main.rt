//! Cases of what stands outside of a run and of the bodies that work on it, as standard input lists them.
//!
//! A line is a case: the word of its part, and what that takes. It is written again, and behind it what it came to. A line
//! that begins with `#` is a title. `texts` says how a word spells a text. All is written into one text, `told`, and printed
//! at the end, so that no case lets go of what it holds after each word.
#![tactic(auto)]

mod bodies;
mod boxes;
mod connections;
mod devices;
mod gates;
mod handed;
mod homes;
mod listeners;
mod memory;
mod names;
mod own;
mod players;
mod stories;
mod streams;
mod texts;

use std::alloc::AllocError;
use std::io;
use std::thread::Threads;
use told_text::Told;

fn main(rt: HostRuntime) -> io::Result<()> {
    let mut told = Told::new(rt.alloc());
    for line in rt.lines(rt.alloc()) {
        let line = line?;
        tell(&rt, &rt, &mut told, line.as_str())?;
    }
    told.print(&rt)
}

fn tell<R: Threads + Sync>(
    rt: &HostRuntime,
    waits: &R,
    told: &mut Told,
    line: &str,
) -> io::Result<()> {
    told.add(line);
    if !line.starts_with('#') {
        told.add(" =");
        let (part, acts) = texts::halves(line);
        run(rt, waits, told, part, acts)?;
    }
    told.add("\n");
    Ok(())
}

// The parts that need the system; any other is one of what is held in memory.
fn run<R: Threads + Sync>(
    rt: &HostRuntime,
    waits: &R,
    told: &mut Told,
    part: &str,
    acts: &str,
) -> io::Result<()> {
    match part {
        "home" => homes::home(rt, told, acts),
        "connect" => connections::connect(rt, told, acts),
        "locked" => devices::locked(rt, told),
        "kept" => devices::kept(rt, told),
        "listen" => connections::listen(rt, waits, told),
        "early" => connections::early(rt, waits, told),
        "silent" => connections::silent(rt, told),
        "reset" => connections::reset(rt, told),
        "hang_up" => connections::hang_up(rt, waits, told),
        "refused" => connections::refused(rt, told),
        "several" => listeners::several(rt, told),
        "no_wait" => streams::no_wait(rt, told),
        "full_pipe" => streams::full_pipe(rt, waits, told),
        _ => Ok(run_named(rt, told, part, acts)?),
    }
}

// The parts that open what a name says, and those of the players.
fn run_named(rt: &HostRuntime, told: &mut Told, part: &str, acts: &str) -> Result<(), AllocError> {
    match part {
        "device" => devices::device(rt, told, acts),
        "open" => devices::open(rt, told, acts),
        "whole" => devices::whole(rt, told, acts),
        "many" => streams::many(rt, told),
        "read" => players::read(told, acts),
        "write" => players::write(rt, told, acts),
        "ticks" => {
            devices::ticks(rt, told);
            Ok(())
        }
        _ => run_in_memory(told, part, acts),
    }
}

fn run_in_memory(told: &mut Told, part: &str, acts: &str) -> Result<(), AllocError> {
    match part {
        "lines" => memory::lines(told, acts),
        "gate" => gates::gate(told, acts),
        "put" => memory::put(told, acts),
        "again" => memory::again(told),
        "offers" => memory::each_offer(told),
        "edges" => names::edges(told, acts),
        "address" => names::address(told, acts),
        "name" => names::name(told, acts),
        "clock" => {
            memory::clock(told, acts);
            Ok(())
        }
        _ => run_bodies(told, part, acts),
    }
}

fn run_bodies(told: &mut Told, part: &str, acts: &str) -> Result<(), AllocError> {
    match part {
        "callback" => boxes::callback(told, acts),
        "jobs" => bodies::jobs(told, acts),
        "stock" => boxes::stock(told),
        "fetch" => bodies::fetch(told),
        "short" => bodies::short(told),
        "filled" => bodies::filled(told),
        "own" => own::through_its_box(told),
        "answers" => own::answers(told),
        "handed" => handed::over(told),
        _ => {
            told.add(" no part");
            Ok(())
        }
    }
}
