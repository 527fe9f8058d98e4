//! A call of the program over objects in memory, and what it came to.

use super::case::Case;
use super::judge::acks_in;
use super::outside::{
    World, are_sinks_free, clock, free_world_of, held_under, is_source_free, shown, world_of,
};
use super::texts::{has_line, has_word, pieces_in};
use body_jobs::Body;
use made_sources::MadeSource;
use mem_edges::{MemClock, MemEdges, MemSink, MemSource};
use own_callback::run_program;
use pipe_journal::Journal;
use pipe_types::topology::Kind;
use rate_gate::GatedSource;
use stage_callback::{Callback, LinesBox, StepsBox};
use std::alloc::{AllocError, Global};
use std::io;
use std::sync::Wait;
use std::thread::Threads;

/// How many boxes of each built-in kind are in stock, where the case does not tell it.
const STOCK: u64 = 64;

/// A callback in its box.
pub type Handler = Box<dyn Callback + Send>;

/// What a call came to: its status, whether there was a topology, its journal, and whether the boxes came back in their order.
#[derive(Drop)]
pub struct Ended {
    pub status: u8,
    topology: bool,
    pub journal: Journal,
    home: bool,
}

/// Calls the program with these words, and writes what it came to.
pub fn run_call<R: Threads + Wait + Sync>(
    rt: &HostRuntime,
    waits: &R,
    case: &Case,
    words: &str,
) -> io::Result<()> {
    let mut world = world_of(rt.alloc(), case)?;
    let end = call(waits, rt.alloc(), case, words, &mut world)?;
    let home = end.home && is_home(rt.alloc(), case, &mut world)?;
    let back = if home { "home" } else { "not home" };
    let status = end.status;
    print!(rt; "{words}: status {status}, {back}")?;
    tell_counts(rt, case, &end)?;
    tell_texts(rt, case, &world)?;
    if has_word(case.text("show"), "front") {
        tell_front(rt, waits, case, words, shown(&world.out))?;
    }
    Ok(())
}

/// Writes how many bytes the output has, and whether they are the first that the same call writes to one that takes all.
fn tell_front<R: Threads + Wait + Sync>(
    rt: &HostRuntime,
    waits: &R,
    case: &Case,
    words: &str,
    out: &str,
) -> io::Result<()> {
    let mut free = free_world_of(rt.alloc(), case)?;
    call(waits, rt.alloc(), case, words, &mut free)?;
    let count = out.len();
    let front = shown(&free.out).starts_with(out);
    println!(rt; "out has the first {count} bytes: {front}")
}

fn tell_counts(rt: &HostRuntime, case: &Case, end: &Ended) -> io::Result<()> {
    let (topology, steps) = (end.topology, end.journal.len());
    let show = case.text("show");
    if has_word(show, "topology") {
        print!(rt; ", topology {topology}")?;
    }
    if has_word(show, "steps") {
        print!(rt; ", steps {steps}")?;
    }
    if has_word(show, "accepted") {
        let accepted = accepted_in(&end.journal);
        print!(rt; ", accepted {accepted}")?;
    }
    println!(rt; "")
}

fn tell_texts(rt: &HostRuntime, case: &Case, world: &World) -> io::Result<()> {
    tell_outputs(rt, case, shown(&world.out), shown(&world.err))?;
    tell_sinks(rt, case, &world.edges)?;
    tell_live(rt, case, world)
}

/// Writes the output, or of it what the case wants to see, and the error output.
pub fn tell_outputs(rt: &HostRuntime, case: &Case, out: &str, err: &str) -> io::Result<()> {
    if has_word(case.text_or("show", "out"), "out") {
        tell(rt, "", out)?;
    }
    if has_word(case.text("show"), "report") {
        tell_report(rt, out)?;
    }
    tell_looks(rt, case.text("look"), out)?;
    tell(rt, "error ", err)
}

/// Writes what the sinks hold that the case wants to see.
fn tell_sinks(rt: &HostRuntime, case: &Case, edges: &MemEdges) -> io::Result<()> {
    if has_word(case.text("show"), "s") {
        tell(rt, "s ", held_under(rt.alloc(), edges, "mem:s")?)?;
    }
    if has_word(case.text("show"), "t") {
        tell(rt, "t ", held_under(rt.alloc(), edges, "mem:t")?)?;
    }
    if has_word(case.text("show"), "sorted") {
        tell_sorted(rt, case, "s", held_under(rt.alloc(), edges, "mem:s")?)?;
        tell_sorted(rt, case, "t", held_under(rt.alloc(), edges, "mem:t")?)?;
    }
    Ok(())
}

/// Writes what the live sink holds, or whether that is what the output has of acknowledgements, as the case wants to see it.
fn tell_live(rt: &HostRuntime, case: &Case, world: &World) -> io::Result<()> {
    let live = held_under(rt.alloc(), &world.edges, "mem:l")?;
    if has_word(case.text("show"), "l") {
        tell(rt, "l ", live)?;
    }
    if has_word(case.text("show"), "live") {
        let same = !live.is_empty() && live == acks_in(shown(&world.out));
        println!(rt; "l has the acknowledgements: {same}")?;
    }
    Ok(())
}

/// Writes whether the lines are those that the case wants, in any order.
fn tell_sorted(rt: &HostRuntime, case: &Case, name: &str, text: &str) -> io::Result<()> {
    let wanted = sorted(rt.alloc(), case.text(name))?;
    let same = sorted(rt.alloc(), text)? == wanted;
    let count = wanted.len();
    println!(rt; "{name} has the {count} lines: {same}")
}

fn sorted(alloc: Global, text: &str) -> Result<Vec<&str>, AllocError> {
    let mut lines = Vec::new(alloc);
    for line in text.lines() {
        lines.push(line)?;
    }
    lines.sort_unstable();
    Ok(lines)
}

/// Writes each line of the text behind its mark and a `|`, and a last one that has no end behind a `+`.
pub fn tell(rt: &HostRuntime, mark: &str, text: &str) -> io::Result<()> {
    let last = pieces_in(text, '\n').saturating_sub(1);
    for (at, line) in text.split('\n').enumerate() {
        if at < last {
            println!(rt; "{mark}|{line}")?;
        } else if !line.is_empty() {
            println!(rt; "{mark}+{line}")?;
        }
    }
    Ok(())
}

/// Writes of each form whether the text has such a line.
fn tell_looks(rt: &HostRuntime, forms: &str, text: &str) -> io::Result<()> {
    for form in forms.lines() {
        let seen = if has_line(text, form) {
            "seen"
        } else {
            "not seen"
        };
        println!(rt; "{seen}: {form}")?;
    }
    Ok(())
}

/// Writes the lines from that on which begins the report.
fn tell_report(rt: &HostRuntime, out: &str) -> io::Result<()> {
    let mut begun = false;
    for line in out.lines() {
        begun = begun || line.starts_with("accepted ");
        if begun {
            println!(rt; "|{line}")?;
        }
    }
    Ok(())
}

/// Calls the program with these words on what the case gives, with as many boxes of each kind in stock as it tells.
pub fn call<R: Threads + Wait + Sync>(
    rt: &R,
    alloc: Global,
    case: &Case,
    words: &str,
    world: &mut World,
) -> Result<Ended, AllocError> {
    let words = words_of(alloc, words)?;
    let (lines, steps) = (lines_boxes(case), steps_boxes(case));
    let mut stock: Vec<Handler> = Vec::new(alloc);
    for _ in 0..lines {
        stock.push(Box::new(alloc, LinesBox::new(alloc))?)?;
    }
    for _ in 0..steps {
        stock.push(Box::new(alloc, StepsBox::new(alloc))?)?;
    }
    let end = run_program::<
        R,
        MemEdges,
        Handler,
        Body<GatedSource<MemSource>, MemSink>,
        Body<GatedSource<MadeSource>, MemSink>,
        MemClock,
    >(
        rt,
        alloc,
        &words,
        stock,
        &mut world.edges,
        clock(case.number_or("nap", 0)),
        &mut world.out,
        &mut world.err,
    );
    Ok(Ended {
        status: end.status,
        topology: end.topology.is_some(),
        home: is_stock(&end.stock, lines, steps),
        journal: end.journal,
    })
}

fn accepted_in(journal: &Journal) -> usize {
    let mut accepted: usize = 0;
    for at in 0..journal.len() {
        accepted = accepted.saturating_add(journal.view(at).records().len());
    }
    accepted
}

/// Whether the source and the sinks were given back.
pub fn is_home(alloc: Global, case: &Case, world: &mut World) -> Result<bool, AllocError> {
    Ok(are_sinks_free(alloc, &world.edges)? && is_source_free(alloc, case, &mut world.edges)?)
}

// No words are none, and not one that is empty.
fn words_of(alloc: Global, text: &str) -> Result<Vec<String>, AllocError> {
    let mut words = Vec::new(alloc);
    if !text.is_empty() {
        for word in text.split(' ') {
            words.push(String::from_str(alloc, word)?)?;
        }
    }
    Ok(words)
}

fn lines_boxes(case: &Case) -> u64 {
    case.number_or("lines.boxes", STOCK)
}

fn steps_boxes(case: &Case) -> u64 {
    case.number_or("steps.boxes", STOCK)
}

fn is_stock(stock: &Vec<Handler>, lines: u64, steps: u64) -> bool {
    for (at, callback) in stock.iter().enumerate() {
        if matches!(callback.kind(), Kind::Lines) != ((at as u64) < lines) {
            return false;
        }
    }
    stock.len() as u64 == lines.saturating_add(steps)
}
