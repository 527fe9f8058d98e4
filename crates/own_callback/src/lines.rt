//! A run of lines in memory, told in its texts.

ghost use Rattle.std.specs.Prelude.{◌≡◌, ◌≤◌, ◌++◌, true, length, IfOk, codes};
ghost use Rattle.pipe_edges.specs.declared.edges.EdgeKind.{EdgeKind};
ghost use Rattle.mem_edges.specs.MemEdges.{is_free_in, named_in};
ghost use Rattle.pipe_top.specs.Runs.{IsRunOrNone};

use crate::call::{bytes, output, text};
use box_stock::{Boxed, Carries};
use made_sources::MadeSource;
use mem_edges::{CallList, MemClock, MemEdges, MemSink, MemSource, SourceScript};
use pipe_journal::Journal;
use pipe_top::run_program;
use pipe_types::bytes::Bytes;
use pipe_types::topology::Topology;
use rate_gate::GatedSource;
use stage_bodies::Houses;
use std::alloc::{AllocError, Global};
use std::sync::Wait;
use std::thread::Threads;

/// What a run of lines came to: its status, the acknowledgements and the report, what the sinks `mem:s` and `mem:t` hold, and
/// what was written to the error output; and the topology, the journal, and the callbacks in their order.
#[derive(Drop)]
pub struct LinesEnd<C> {
    pub status: u8,
    pub acknowledgements: Bytes,
    pub report: Bytes,
    pub s: Bytes,
    pub t: Bytes,
    pub errors: Bytes,
    pub topology: Option<Topology>,
    pub journal: Journal,
    pub stock: Vec<C>,
}

/// Runs the topology of a file on one worker, with these callbacks in stock, over these lines under the name `mem:a` and empty
/// sinks under `mem:s` and `mem:t`. The error is want of memory.
pub fn run_lines<
    R: Threads + Wait + Sync,
    C: Boxed,
    B: Carries<C> + Houses<GatedSource<MemSource>, MemSink> + Send,
    G: Carries<C> + Houses<GatedSource<MadeSource>, MemSink> + Send,
>(rt: &R, alloc: Global, file: &str, lines: &str, stock: Vec<C>) -> Result<LinesEnd<C>, AllocError>
    // The journal is legal and keeps every claim, and each step of its own accord was the next move.
    ensures run { IfOk result (λ end. IsRunOrNone end.topology end.journal.steps) }
{
    let words = words_of(alloc)?;
    let mut edges = edges_with_sinks(alloc, file, lines)?;
    let mut out = output(alloc)?;
    let mut err = output(alloc)?;
    let clock = MemClock {
        at: 0,
        step: 0,
        nap: 0,
        latest: 0,
        readings: 0,
        pauses: 0,
    };
    let end = run_program::<R, MemEdges, C, B, G, MemClock>(
        rt, alloc, &words, stock, &mut edges, clock, &mut out, &mut err,
    );
    let (acknowledgements, report) = parts_of(alloc, out.held())?;
    Ok(LinesEnd {
        status: end.status,
        acknowledgements,
        report,
        s: held_under(alloc, &edges, "mem:s")?,
        t: held_under(alloc, &edges, "mem:t")?,
        errors: copy_bytes(alloc, err.held())?,
        topology: end.topology,
        journal: end.journal,
        stock: end.stock,
    })
}

/// The words `run t --acks`.
fn words_of(alloc: Global) -> Result<Vec<String>, AllocError> {
    let mut words = Vec::new(alloc);
    words.push(String::from_str(alloc, "run")?)?;
    words.push(String::from_str(alloc, "t")?)?;
    words.push(String::from_str(alloc, "--acks")?)?;
    Ok(words)
}

/// The sinks are empty, the file stands under the name `t`, the lines under `mem:a`.
fn edges_with_sinks(alloc: Global, file: &str, lines: &str) -> Result<MemEdges, AllocError>
    ensures file { IfOk result (λ edges. named_in edges EdgeKind.File (codes "t") ≡ file.now) }
    ensures lines { IfOk result (λ edges. named_in edges EdgeKind.Source (codes "mem:a") ≡ lines.now) }
{
    let mut edges = MemEdges::new(alloc, CallList::from_vec(Vec::new(alloc)));
    edges.add_sink(text(alloc, "mem:s")?, output(alloc)?)?;
    edges.add_sink(text(alloc, "mem:t")?, output(alloc)?)?;
    edges.add_file(text(alloc, "t")?, bytes(alloc, file)?)?;
    let source = MemSource::new(
        bytes(alloc, lines)?,
        SourceScript::from_vec(Vec::new(alloc)),
    );
    edges.add_source(text(alloc, "mem:a")?, source)?;
    Ok(edges)
}

/// What the sink under this name holds, or nothing where it was not given back.
fn held_under(alloc: Global, edges: &MemEdges, name: &str) -> Result<Bytes, AllocError>
    ensures { is_free_in edges.now EdgeKind.Sink name.now ≡ true
        → IfOk result (λ held. held ≡ named_in edges.now EdgeKind.Sink name.now) }
{
    let name = text(alloc, name)?;
    match edges.sink(&name) {
        Some(sink) => copy_bytes(alloc, sink.held()),
        None => Ok(Bytes::from_vec(Vec::new(alloc))),
    }
}

/// The acknowledgements, and the report behind them.
fn parts_of(alloc: Global, text: &[u8]) -> Result<(Bytes, Bytes), AllocError>
    ensures { IfOk result (λ parts. parts.0 ++ parts.1 ≡ text.now) }
{
    let at = report_at(text);
    Ok((
        copy_bytes(alloc, &text[..at])?,
        copy_bytes(alloc, &text[at..])?,
    ))
}

/// Where the first line begins that begins with `accepted `, or the end.
fn report_at(text: &[u8]) -> usize
    ensures { result ≤ length text.now }
{
    for at in 0..text.len() {
        if (at == 0 || text[at - 1] == b'\n') && text[at..].starts_with(b"accepted ") {
            return at;
        }
    }
    text.len()
}

fn copy_bytes(alloc: Global, bytes: &[u8]) -> Result<Bytes, AllocError>
    ensures { IfOk result (λ copied. copied ≡ bytes.now) }
{
    Ok(Bytes::from_vec(Vec::from_slice(alloc, bytes)?))
}
