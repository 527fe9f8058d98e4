//! What names spell, and calls by name in memory.

ghost use Rattle.std.specs.Prelude.{◌≡◌, IfOk};
ghost use Rattle.mem_edges.specs.{MemSource.{IsUnread}, MemSink.{IsUnwritten}};

use super::memory::{read_twice, sink_of, source_of, tell_held};
use super::stories::tell_wrote;
use super::texts::{bytes_of, halves, name_of, spelled};
use file_socket_sinks::{Address, SinkName, SourceName};
use mem_edges::{CallList, MemEdges, MemSink, MemSource};
use pipe_edges::{ByteSink, EdgeEnd, Edges};
use pipe_types::bytes::{Bytes, Text};
use std::alloc::{AllocError, Global};
use told_text::Told;

/// `address TEXT`: the host and the port.
pub fn address(told: &mut Told, word: &str) -> Result<(), AllocError> {
    let text = spelled(told.alloc, word)?;
    match Address::parse(text.as_str()) {
        Some(address) => {
            told.add(" ");
            told.add(address.host);
            told.count(u64::from(address.port));
        }
        None => told.add(" none"),
    }
    Ok(())
}

/// `name TEXT`: what it is as the name of a source, and of a sink.
pub fn name(told: &mut Told, word: &str) -> Result<(), AllocError> {
    let text = spelled(told.alloc, word)?;
    match SourceName::parse(text.as_str()) {
        Some(SourceName::File(path)) => tell_path(told, path),
        Some(SourceName::Input) => told.add(" input"),
        Some(SourceName::Connect(peer)) => tell_peer(told, " connect(", &peer),
        Some(SourceName::Listen(own)) => tell_peer(told, " listen(", &own),
        None => told.add(" none"),
    }
    match SinkName::parse(text.as_str()) {
        Some(SinkName::File(path)) => tell_path(told, path),
        Some(SinkName::Connect(peer)) => tell_peer(told, " connect(", &peer),
        None => told.add(" none"),
    }
    Ok(())
}

fn tell_path(told: &mut Told, path: &str) {
    told.add(" file(");
    told.add(path);
    told.add(")");
}

fn tell_peer(told: &mut Told, way: &str, peer: &Address<'_>) {
    told.add(way);
    told.add(peer.host);
    told.add(":");
    told.number(u64::from(peer.port));
    told.add(")");
}

// A source `s`, a sink `k` and a file `f`.
fn three_names(alloc: Global, fails: CallList) -> Result<MemEdges, AllocError> {
    let mut edges = MemEdges::new(alloc, fails);
    let (name, source) = named_source(alloc)?;
    edges.add_source(name, source)?;
    let (name, sink) = named_sink(alloc)?;
    edges.add_sink(name, sink)?;
    let (name, file) = named_file(alloc)?;
    edges.add_file(name, file)?;
    Ok(edges)
}

fn named_source(alloc: Global) -> Result<(Text, MemSource), AllocError>
    ensures { IfOk result (λ r. IsUnread r.1) }
{
    let source = source_of(alloc, "ab", "1")?;
    Ok((name_of(alloc, "s")?, source))
}

fn named_sink(alloc: Global) -> Result<(Text, MemSink), AllocError>
    ensures { IfOk result (λ r. IsUnwritten r.1) }
{
    let sink = sink_of(alloc, ">^", 100, "")?;
    Ok((name_of(alloc, "k")?, sink))
}

fn named_file(alloc: Global) -> Result<(Text, Bytes), AllocError> {
    let file = bytes_of(alloc, "x^=^1")?;
    Ok((name_of(alloc, "f")?, file))
}

/// `edges FAIL ACTS..`: calls by name over a source `s` of the bytes `ab`, the first of which comes alone, a sink `k` that
/// holds `> ` and a file `f` of the text `x = 1`, where the call of this number fails, none for 0.
pub fn edges(told: &mut Told, acts: &str) -> Result<(), AllocError> {
    let (fail, acts) = halves(acts);
    let fails = vec![in told.alloc; fail.parse::<u64>().unwrap_or(0)]?;
    let mut edges = three_names(told.alloc, CallList::from_vec(fails))?;
    for word in acts.split_whitespace() {
        call(told, &mut edges, word)?;
    }
    Ok(())
}

fn call(told: &mut Told, edges: &mut MemEdges, word: &str) -> Result<(), AllocError> {
    let (act, name) = word.split_once(':').unwrap_or((word, ""));
    let name = name_of(told.alloc, name)?;
    match act {
        "source" => tell_end(told, &edges.open_source(&name)),
        "sink" => tell_end(told, &edges.open_sink(&name)),
        "file" => tell_end(told, &edges.read_file(&name)),
        "text" => tell_file(told, edges, &name),
        "held" => tell_sink(told, edges, &name),
        "twice" => read_source(told, edges, &name),
        _ => write_once(told, edges, &name),
    }
    Ok(())
}

/// Tells how a call ends.
pub fn tell_end<T>(told: &mut Told, answer: &Result<T, EdgeEnd>) {
    match answer {
        Ok(_) => told.add(" done"),
        Err(EdgeEnd::Failed) => told.add(" failed"),
        Err(EdgeEnd::OutOfMemory) => told.add(" out of memory"),
    }
}

fn tell_file(told: &mut Told, edges: &mut MemEdges, name: &Text) {
    match edges.read_file(name) {
        Ok(bytes) => {
            told.add(" ");
            told.spelled(bytes.as_slice());
        }
        Err(_) => told.add(" none"),
    }
}

fn tell_sink(told: &mut Told, edges: &MemEdges, name: &Text) {
    match edges.sink(name) {
        Some(sink) => tell_held(told, sink),
        None => told.add(" none"),
    }
}

// Opens the source, reads twice, and gives the source back.
fn read_source(told: &mut Told, edges: &mut MemEdges, name: &Text) {
    match edges.open_source(name) {
        Ok(mut source) => {
            read_twice(told, &mut source);
            if edges.back_source(name, source).is_err() {
                told.cut();
            }
        }
        Err(_) => told.add(" no source"),
    }
}

// Opens the sink, which no one finds then, writes to it, and gives it back.
fn write_once(told: &mut Told, edges: &mut MemEdges, name: &Text) {
    match edges.open_sink(name) {
        Ok(mut sink) => {
            tell_sink(told, edges, name);
            tell_wrote(told, sink.write(b"hi"));
            if edges.back_sink(name, sink).is_err() {
                told.cut();
            }
        }
        Err(_) => told.add(" no sink"),
    }
}
