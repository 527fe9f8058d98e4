//! What stands outside of a call, in memory.

ghost use Rattle.std.specs.Prelude.{◌≡◌, ℕ, List, IfOk, codes};
ghost use Rattle.mem_edges.specs.{MemSource.{IsUnread}, MemSink.{IsUnwritten}, MemEdges.{IsNew}};
ghost use Rattle.pipe_edges.specs.declared.edges.EdgeKind.{EdgeKind};

use super::case::{Case, number};
use super::streams::{add_streams, are_streams_free, file_of};
use mem_edges::{
    CallList, MemClock, MemEdges, MemSink, MemSource, SinkAct, SinkScript, SourceAct, SourceScript,
};
use pipe_edges::Edges;
use pipe_types::bytes::{Bytes, Text};
use std::alloc::{AllocError, Global};

/// Room for every text that a call here writes.
const ROOM: u64 = 300_000;

/// What stands outside of a call.
#[derive(Drop)]
pub struct World {
    pub edges: MemEdges,
    pub out: MemSink,
    pub err: MemSink,
}

/// What the case gives.
pub fn world_of(alloc: Global, case: &Case) -> Result<World, AllocError> {
    let edges = edges_of(alloc, case)?;
    let (out, err) = outputs_of(alloc, case)?;
    Ok(World { edges, out, err })
}

fn outputs_of(alloc: Global, case: &Case) -> Result<(MemSink, MemSink), AllocError> {
    let out = sink_with(
        alloc,
        case.text("out.acts"),
        case.number_or("out.room", ROOM),
    )?;
    let err = sink_of(alloc, case.text("err.acts"))?;
    Ok((out, err))
}

/// What the case gives, with an output that takes all.
pub fn free_world_of(alloc: Global, case: &Case) -> Result<World, AllocError> {
    let edges = edges_of(alloc, case)?;
    let out = sink_of(alloc, "")?;
    let err = sink_of(alloc, "")?;
    Ok(World { edges, out, err })
}

/// Whether the first source can be opened again, and each of a merge.
pub fn is_source_free(
    alloc: Global,
    case: &Case,
    edges: &mut MemEdges,
) -> Result<bool, AllocError> {
    let source = text_of(alloc, case.text_or("first", "mem:a"))?;
    if edges.open_source(&source).is_err() {
        Ok(false)
    } else if case.text("file").contains("many:mem:a,mem:b") {
        Ok(edges.open_source(&text_of(alloc, "mem:b")?).is_ok())
    } else {
        are_streams_free(alloc, case, edges)
    }
}

/// Whether all sinks were given back.
pub fn are_sinks_free(alloc: Global, edges: &MemEdges) -> Result<bool, AllocError> {
    let (s, t) = (text_of(alloc, "mem:s")?, text_of(alloc, "mem:t")?);
    let l = text_of(alloc, "mem:l")?;
    Ok(edges.sink(&s).is_some() && edges.sink(&t).is_some() && edges.sink(&l).is_some())
}

/// What the sink under this name holds, or nothing where it was not given back.
pub fn held_under<'a>(
    alloc: Global,
    edges: &'a MemEdges,
    name: &str,
) -> Result<&'a str, AllocError> {
    let name = text_of(alloc, name)?;
    Ok(match edges.sink(&name) {
        Some(sink) => shown(sink),
        None => "",
    })
}

/// What was written.
pub fn shown(sink: &MemSink) -> &str {
    str::from_utf8(sink.held()).unwrap_or("no text")
}

fn text_of(alloc: Global, text: &str) -> Result<Text, AllocError>
    ensures { IfOk result (λ t. t ≡ text.now) }
{
    Ok(Text::from_string(String::from_str(alloc, text)?))
}

fn bytes_of(alloc: Global, text: &str) -> Result<Bytes, AllocError> {
    Ok(Bytes::from_vec(Vec::from_slice(alloc, text.as_bytes())?))
}

fn edges_of(alloc: Global, case: &Case) -> Result<MemEdges, AllocError> {
    let mut edges = add_streams(alloc, case, edges_without_sources(alloc, case)?)?;
    edges.add_source(
        text_of(alloc, "mem:b")?,
        source_of(alloc, case, "b", "b.acts")?,
    )?;
    edges.add_source(
        text_of(alloc, "mem:c")?,
        source_of(alloc, case, "c", "c.acts")?,
    )?;
    edges.add_source(
        text_of(alloc, "mem:d")?,
        source_of(alloc, case, "d", "d.acts")?,
    )?;
    add_first(alloc, case, edges)
}

/// The first source stands under `mem:a` or, where the case says so, under `t`; where it names another, there is none.
fn add_first(alloc: Global, case: &Case, mut edges: MemEdges) -> Result<MemEdges, AllocError>
    requires a { IsNew edges EdgeKind.Source (codes "mem:a") }
    requires t { IsNew edges EdgeKind.Source (codes "t") }
{
    let first = case.text_or("first", "mem:a");
    let source = source_of(alloc, case, "a", "a.acts")?;
    if first == "mem:a" {
        edges.add_source(text_of(alloc, "mem:a")?, source)?;
    } else if first == "t" {
        edges.add_source(text_of(alloc, "t")?, source)?;
    }
    Ok(edges)
}

fn edges_without_sources(alloc: Global, case: &Case) -> Result<MemEdges, AllocError>
    ensures { IfOk result (λ edges. (name : List ℕ) → IsNew edges EdgeKind.Source name) }
{
    let mut edges = MemEdges::new(alloc, fails_of(alloc, case.text("fails"))?);
    let file = file_of(alloc, case)?;
    edges.add_file(text_of(alloc, "t")?, bytes_of(alloc, file.as_str())?)?;
    edges.add_sink(
        text_of(alloc, "mem:s")?,
        sink_of(alloc, case.text("s.acts"))?,
    )?;
    edges.add_sink(
        text_of(alloc, "mem:t")?,
        sink_of(alloc, case.text("t.acts"))?,
    )?;
    edges.add_sink(
        text_of(alloc, "mem:l")?,
        sink_of(alloc, case.text("l.acts"))?,
    )?;
    Ok(edges)
}

fn fails_of(alloc: Global, text: &str) -> Result<CallList, AllocError> {
    let mut calls = Vec::new(alloc);
    for word in text.split_whitespace() {
        calls.push(number(word))?;
    }
    Ok(CallList::from_vec(calls))
}

fn source_of(alloc: Global, case: &Case, lines: &str, acts: &str) -> Result<MemSource, AllocError>
    ensures { IfOk result IsUnread }
{
    let lines = bytes_of(alloc, case.text(lines))?;
    Ok(MemSource::new(lines, source_script(alloc, case.text(acts))?))
}

/// A number gives so many bytes, `wait` nothing yet; another word fails.
pub fn source_script(alloc: Global, text: &str) -> Result<SourceScript, AllocError> {
    let mut acts = Vec::new(alloc);
    for word in text.split_whitespace() {
        acts.push(source_act(word))?;
    }
    Ok(SourceScript::from_vec(acts))
}

fn source_act(word: &str) -> SourceAct {
    match word.parse::<usize>() {
        Ok(count) => SourceAct::Give(count),
        Err(_) => {
            if word == "wait" {
                SourceAct::Wait
            } else {
                SourceAct::Fail
            }
        }
    }
}

fn sink_of(alloc: Global, acts: &str) -> Result<MemSink, AllocError>
    ensures { IfOk result IsUnwritten }
{
    sink_with(alloc, acts, ROOM)
}

fn sink_with(alloc: Global, acts: &str, room: u64) -> Result<MemSink, AllocError>
    ensures { IfOk result IsUnwritten }
{
    let script = sink_script(alloc, acts)?;
    MemSink::new(Bytes::from_vec(Vec::new(alloc)), room as usize, script)
}

// A number takes so many bytes; another word fails.
fn sink_script(alloc: Global, text: &str) -> Result<SinkScript, AllocError> {
    let mut acts = Vec::new(alloc);
    for word in text.split_whitespace() {
        acts.push(sink_act(word))?;
    }
    Ok(SinkScript::from_vec(acts))
}

fn sink_act(word: &str) -> SinkAct {
    match word.parse::<usize>() {
        Ok(count) => SinkAct::Take(count),
        Err(_) => SinkAct::Fail,
    }
}

/// A clock that stays, from 0, but for its pauses.
pub fn clock(nap: u64) -> MemClock {
    MemClock {
        at: 0,
        step: 0,
        nap,
        latest: 0,
        readings: 0,
        pauses: 0,
    }
}
