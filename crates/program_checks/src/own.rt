//! Calls of the program with callbacks of one's own.

ghost use Rattle.std.specs.Prelude.{◌≤◌};

use super::calls::{Handler, tell, tell_outputs};
use super::case::{Case, number};
use super::meets::Meets;
use super::outside::shown;
use body_jobs::Body;
use made_sources::MadeSource;
use mem_edges::{MemSink, MemSource};
use own_callback::{LinesEnd, PlainLines, ThirdCrashes, run_lines, run_with};
use own_handler::{OwnBox, PassAll};
use pipe_types::bytes::Bytes;
use rate_gate::GatedSource;
use std::io;
use std::sync::atomic::AtomicU64;
use std::sync::{Arc, Wait};
use std::thread::Threads;

/// Runs the callbacks of the case on so many workers, and writes what it came to: callbacks that meet, if the case tells how
/// many, or one that crashes at its third message.
pub fn run_own<R: Threads + Wait + Sync>(
    rt: &HostRuntime,
    waits: &R,
    case: &Case,
    workers: &str,
) -> io::Result<()> {
    let count = workers.parse::<u16>().unwrap_or(0);
    if count < 1 || count > 16 {
        return println!(rt; "not allowed");
    }
    if number(case.text("meets")) > 0 {
        run_meeting(rt, waits, case, count)
    } else {
        run_third(rt, waits, case, count)
    }
}

/// Runs one callback that crashes at its third message.
fn run_third<R: Threads + Wait + Sync>(
    rt: &HostRuntime,
    waits: &R,
    case: &Case,
    count: u16,
) -> io::Result<()>
    requires least { 1 ≤ count }
    requires most { count ≤ 16 }
{
    let mut stock: Vec<Handler> = Vec::new(rt.alloc());
    stock.push(Box::new(rt.alloc(), OwnBox::new(rt.alloc(), ThirdCrashes::new()))?)?;
    run_together(rt, waits, case, count, stock)
}

/// Runs so many callbacks as the case says, which share a count, which is 0, and meet all together.
fn run_meeting<R: Threads + Wait + Sync>(
    rt: &HostRuntime,
    waits: &R,
    case: &Case,
    count: u16,
) -> io::Result<()>
    requires least { 1 ≤ count }
    requires most { count ≤ 16 }
{
    let (group, looks) = (number(case.text("meets")), number(case.text("looks")));
    let begun = Arc::new(rt.alloc(), AtomicU64::new(0))?;
    let mut stock: Vec<Handler> = Vec::new(rt.alloc());
    for _ in 0..group {
        let meets = Meets::new(Arc::try_clone(&begun)?, group, looks);
        stock.push(Box::new(rt.alloc(), OwnBox::new(rt.alloc(), meets))?)?;
    }
    run_together(rt, waits, case, count, stock)
}

/// Runs the callbacks on so many workers.
fn run_together<R: Threads + Wait + Sync>(
    rt: &HostRuntime,
    waits: &R,
    case: &Case,
    count: u16,
    stock: Vec<Handler>,
) -> io::Result<()>
    requires least { 1 ≤ count }
    requires most { count ≤ 16 }
{
    let came = run_with::<
        _,
        _,
        Body<GatedSource<MemSource>, MemSink>,
        Body<GatedSource<MadeSource>, MemSink>,
    >(
        waits,
        rt.alloc(),
        count,
        case.text("file"),
        case.text("a"),
        stock,
    )?;
    let (status, callbacks) = (came.status, came.stock.len());
    println!(rt; "{count} workers: status {status}, callbacks {callbacks}")?;
    tell_outputs(rt, case, shown(&came.out), shown(&came.err))
}

/// Runs the lines of the case with so many handlers that pass all.
pub fn run_passing<R: Threads + Wait + Sync>(
    rt: &HostRuntime,
    waits: &R,
    case: &Case,
    count: &str,
) -> io::Result<()> {
    let mut stock: Vec<Handler> = Vec::new(rt.alloc());
    for _ in 0..number(count) {
        stock.push(Box::new(rt.alloc(), OwnBox::new(rt.alloc(), PassAll))?)?;
    }
    run_stock(rt, waits, case, stock)
}

/// Runs them with so many callbacks that write plain text.
pub fn run_plain_lines<R: Threads + Wait + Sync>(
    rt: &HostRuntime,
    waits: &R,
    case: &Case,
    count: &str,
) -> io::Result<()> {
    let mut stock: Vec<Handler> = Vec::new(rt.alloc());
    for _ in 0..number(count) {
        stock.push(Box::new(rt.alloc(), PlainLines::new(rt.alloc()))?)?;
    }
    run_stock(rt, waits, case, stock)
}

/// Runs the lines of the case with these callbacks, and writes each text that comes of it.
fn run_stock<R: Threads + Wait + Sync>(
    rt: &HostRuntime,
    waits: &R,
    case: &Case,
    stock: Vec<Handler>,
) -> io::Result<()> {
    let end = run_lines::<
        _,
        _,
        Body<GatedSource<MemSource>, MemSink>,
        Body<GatedSource<MadeSource>, MemSink>,
    >(waits, rt.alloc(), case.text("file"), case.text("a"), stock)?;
    tell_end(rt, &end)
}

fn tell_end(rt: &HostRuntime, end: &LinesEnd<Handler>) -> io::Result<()> {
    let (status, callbacks) = (end.status, end.stock.len());
    println!(rt; "lines: status {status}, callbacks {callbacks}")?;
    tell(rt, "acknowledgements ", text_of(&end.acknowledgements))?;
    tell(rt, "report ", text_of(&end.report))?;
    tell(rt, "s ", text_of(&end.s))?;
    tell(rt, "t ", text_of(&end.t))?;
    tell(rt, "error ", text_of(&end.errors))
}

fn text_of(bytes: &Bytes) -> &str {
    str::from_utf8(bytes.as_slice()).unwrap_or("no text")
}
