//! A call of the program with a callback of one's own.

ghost use Rattle.std.specs.Prelude.{◌≡◌, ◌≢◌, ◌≤◌, [], ◌∷◌, true, codes, map, IfOk, IfSome};
ghost use Rattle.program_words.specs.Words.{texts_of};
ghost use Rattle.pipe_types.specs.{declared.numbers.StageNo.{StageNo}, Stages.{spec_of}};
ghost use Rattle.pipe_model.specs.Outside.{fed};
ghost use Rattle.pipe_edges.specs.declared.edges.EdgeKind.{EdgeKind};
ghost use Rattle.mem_edges.specs.{MemEdges.{named_in}, MemSink.{held_by, IsUnwritten}};
ghost use Rattle.source_lines.specs.Cut.{AreFirstLines};
ghost use Rattle.edge_names.specs.Opened.{calls_in};
ghost use Rattle.box_stock.specs.Lends.{kinds_of};
ghost use Rattle.pipe_top.specs.{Boxes.{AreBoxesLeft}, Cases.{Filed, feeds_of}, Runs.{IsRunOrNone, IsEndOf, IsStatusOf, out_text}};
ghost use Rattle.own_callback.specs.{Came.{run_words, case_of_file}, Plain.{WritesPlainText}};

use box_stock::{Boxed, Carries};
use made_sources::MadeSource;
use mem_edges::{CallList, MemClock, MemEdges, MemSink, MemSource, SinkScript, SourceScript};
use pipe_journal::Journal;
use pipe_top::run_program;
use pipe_types::bytes::{Bytes, Text};
use pipe_types::topology::Topology;
use rate_gate::GatedSource;
use stage_bodies::Houses;
use std::alloc::{AllocError, Global};
use std::sync::Wait;
use std::thread::Threads;

/// Room for the texts that a call writes, in bytes.
const ROOM: usize = 1_000_000;

/// What a call came to: its status, the topology and the journal of its run, both outputs, and the callbacks.
#[derive(Drop)]
pub struct Came<C> {
    pub status: u8,
    pub topology: Option<Topology>,
    pub journal: Journal,
    pub out: MemSink,
    pub err: MemSink,
    pub stock: Vec<C>,
}

/// Runs the topology of a file on so many workers, from 1 to 16, with these callbacks in stock, over these lines under the name
/// `mem:a`, and shows the journal and the acknowledgements. The error is want of memory before the run.
pub fn run_with<
    R: Threads + Wait + Sync,
    C: Boxed,
    B: Carries<C> + Houses<GatedSource<MemSource>, MemSink> + Send,
    G: Carries<C> + Houses<GatedSource<MadeSource>, MemSink> + Send,
>(
    rt: &R,
    alloc: Global,
    workers: u16,
    file: &str,
    lines: &str,
    stock: Vec<C>,
) -> Result<Came<C>, AllocError>
    requires least { 1 ≤ workers }
    requires most { workers ≤ 16 }
    // The journal is legal and keeps every claim, and each step of its own accord was the next move.
    ensures run { IfOk result (λ came. IsRunOrNone came.topology came.journal.steps) }
    // A call by name or a write that failed, and want of memory, are 5, 8 and 9; else the status is that of the case.
    ensures status { IfOk result (λ came. came.status ≢ 5 → came.status ≢ 8 → came.status ≢ 9
        → IsStatusOf came.status (case_of_file (kinds_of C.seen stock.items) file.now)) }
    // Under 0 to 4 the run came to its end, the status is the journal's, and the output has all three texts.
    ensures ended { IfOk result (λ came. came.status ≤ 4
        → IsEndOf came.topology came.journal.steps came.status (case_of_file (kinds_of C.seen stock.items) file.now)) }
    ensures output { IfOk result (λ came. came.status ≤ 4
        → held_by came.out ≡ out_text came.journal.steps (case_of_file (kinds_of C.seen stock.items) file.now)) }
    // What a producer of these lines accepted are the first of them.
    ensures lines { IfOk result (λ came. came.status ≤ 4 → IfSome came.topology (λ topology. (p : StageNo)
        → calls_in (feeds_of Filed topology) (spec_of topology p) ≡ (EdgeKind.Source, codes "mem:a") ∷ [] → AreFirstLines lines.now (fed came.journal.steps p))) }
    // The callbacks, in their order, counted each call, and each answer other than success, that the journal says of their posts.
    ensures counted { IfOk result (λ came. came.status ≤ 4 → IfSome came.topology (λ topology.
        AreBoxesLeft true topology came.journal.steps (map C.seen stock.items)
        (map C.seen came.stock.items))) }
{
    let words = words_of(alloc, workers)?;
    let mut edges = edges_of(alloc, file, lines)?;
    let mut out = output(alloc)?;
    let mut err = output(alloc)?;
    let clock = MemClock {
        at: 0,
        step: 0,
        nap: 0,
        latest: 0,
        readings: 0,
        pauses: 0,
    };
    let end = run_program::<R, MemEdges, C, B, G, MemClock>(
        rt, alloc, &words, stock, &mut edges, clock, &mut out, &mut err,
    );
    Ok(Came {
        status: end.status,
        topology: end.topology,
        journal: end.journal,
        out,
        err,
        stock: end.stock,
    })
}

/// The words `run t --workers N --steps --acks`.
fn words_of(alloc: Global, workers: u16) -> Result<Vec<String>, AllocError>
    ensures { IfOk result (λ words. texts_of words.items ≡ run_words workers) }
{
    let mut words = Vec::new(alloc);
    words.push(String::from_str(alloc, "run")?)?;
    words.push(String::from_str(alloc, "t")?)?;
    words.push(String::from_str(alloc, "--workers")?)?;
    words.push(format!(in alloc; "{workers}")?)?;
    words.push(String::from_str(alloc, "--steps")?)?;
    words.push(String::from_str(alloc, "--acks")?)?;
    Ok(words)
}

/// The file stands under the name `t`, the lines under `mem:a`.
fn edges_of(alloc: Global, file: &str, lines: &str) -> Result<MemEdges, AllocError>
    ensures file { IfOk result (λ edges. named_in edges EdgeKind.File (codes "t") ≡ file.now) }
    ensures lines { IfOk result (λ edges. named_in edges EdgeKind.Source (codes "mem:a") ≡ lines.now) }
{
    let mut edges = MemEdges::new(alloc, CallList::from_vec(Vec::new(alloc)));
    edges.add_file(text(alloc, "t")?, bytes(alloc, file)?)?;
    let source = MemSource::new(
        bytes(alloc, lines)?,
        SourceScript::from_vec(Vec::new(alloc)),
    );
    edges.add_source(text(alloc, "mem:a")?, source)?;
    Ok(edges)
}

/// An output that holds nothing.
pub(crate) fn output(alloc: Global) -> Result<MemSink, AllocError>
    ensures held { IfOk result (λ sink. held_by sink ≡ []) }
    ensures unwritten { IfOk result IsUnwritten }
{
    MemSink::new(
        Bytes::from_vec(Vec::new(alloc)),
        ROOM,
        SinkScript::from_vec(Vec::new(alloc)),
    )
}

pub(crate) fn text(alloc: Global, text: &str) -> Result<Text, AllocError>
    ensures { IfOk result (λ copy. copy ≡ text.now) }
{
    Ok(Text::from_string(String::from_str(alloc, text)?))
}

pub(crate) fn bytes(alloc: Global, text: &str) -> Result<Bytes, AllocError>
    ensures { IfOk result (λ copy. copy ≡ text.now) }
{
    Ok(Bytes::from_vec(Vec::from_slice(alloc, text.as_bytes())?))
}

/// Runs as `run_with` does. What a stage wrote whose callback has the law of `PlainLines` is plain text: the law alone shows
/// it, from what `run_with` says of callbacks.
pub fn run_plain<
    R: Threads + Wait + Sync,
    C: Boxed,
    B: Carries<C> + Houses<GatedSource<MemSource>, MemSink> + Send,
    G: Carries<C> + Houses<GatedSource<MadeSource>, MemSink> + Send,
>(
    rt: &R,
    alloc: Global,
    workers: u16,
    file: &str,
    lines: &str,
    stock: Vec<C>,
) -> Result<Came<C>, AllocError>
    requires least { 1 ≤ workers }
    requires most { workers ≤ 16 }
    ensures plain { IfOk result (λ came. came.status ≤ 4 → IfSome came.topology (λ topology.
        WritesPlainText topology came.journal.steps (map C.seen stock.items))) }
{
    run_with::<R, C, B, G>(rt, alloc, workers, file, lines, stock)
}
