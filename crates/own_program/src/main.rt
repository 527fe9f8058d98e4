//! A program of one's own: `wamiondry` with two handlers in stock, for a topology whose callbacks are of the kind `own`.
#![tactic(auto)]

mod order_lines;
mod orders;

use body_jobs::Body;
use file_socket_sinks::{
    Reader, RealClock, RealEdges, RealOut, RealSource, Writer, take_closed_streams,
};
use made_sources::MadeSource;
use order_lines::OrderLines;
use orders::Orders;
use own_handler::OwnBox;
use pipe_top::run_program;
use rate_gate::GatedSource;
use stage_callback::Callback;
use std::alloc::AllocError;
use std::process::ExitCode;
use std::sync::Wait;
use std::thread::Threads;
use std::{env, io, mem};

/// A callback in its box.
type BoxedCallback = Box<dyn Callback + Send>;

/// The status for want of memory.
const OUT_OF_MEMORY: u8 = 9;

// The words without the program's name. Words that are no text are no command, so none are given then.
fn words_of(rt: &HostRuntime) -> Result<Vec<String>, AllocError> {
    let mut words = Vec::new(rt.alloc());
    match env::args(rt) {
        Ok(all) => {
            for word in all.skip(1) {
                words.push(word)?;
            }
            Ok(words)
        }
        Err(e) if e.kind() == io::ErrorKind::OutOfMemory => Err(AllocError),
        Err(_) => Ok(words),
    }
}

// The first callback of the stock is for the one processor, the second for the one batch processor.
fn run<R: Threads + Wait + Sync>(rt: &HostRuntime, waits: &R) -> Result<u8, AllocError> {
    take_closed_streams(rt).map_err(|_| AllocError)?;
    let alloc = rt.alloc();
    let words = words_of(rt)?;
    let mut stock: Vec<BoxedCallback> = Vec::new(alloc);
    stock.push(Box::new(alloc, OwnBox::new(alloc, Orders::new(alloc)))?)?;
    stock.push(Box::new(alloc, OwnBox::new(alloc, OrderLines::new(alloc)))?)?;
    let mut edges = RealEdges::new(rt);
    let mut out = RealOut::standard_output(rt);
    let mut err = RealOut::standard_error(rt);
    let clock = RealClock::woken_by(rt, &mut edges);
    let end = run_program::<
        R,
        RealEdges,
        BoxedCallback,
        Body<GatedSource<RealSource<Reader>>, RealOut<Writer>>,
        Body<GatedSource<MadeSource>, RealOut<Writer>>,
        RealClock,
    >(
        waits, alloc, &words, stock, &mut edges, clock, &mut out, &mut err,
    );
    let status = end.status;
    // the system takes the memory of the run back at once
    mem::forget(end);
    Ok(status)
}

fn main(rt: HostRuntime) -> ExitCode {
    match run(&rt, &rt) {
        Ok(status) => ExitCode::from(status),
        Err(AllocError) => {
            let _ = rt.eprintln("memory");
            ExitCode::from(OUT_OF_MEMORY)
        }
    }
}
