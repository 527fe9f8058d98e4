//! Sources and sinks that are set not to wait, and a file of many pieces.

use super::stories::tell_wrote;
use super::texts::name_of;
use file_socket_sinks::{RealEdges, RealOut, RealSource};
use pipe_edges::{ByteSink, ByteSource, Edges, Fetched, LineSource, PutEnd, ReadEnd, put_all};
use pipe_types::bytes::{Bytes, Text};
use std::alloc::{AllocError, Global};
use std::os::unix::net::UnixStream;
use std::thread::Threads;
use std::{io, thread};
use told_text::Told;

/// How many bytes stand in several pieces of a read, and fill a pipe more than once.
const MANY: usize = 600_000;

/// The byte at this place of a text that does not repeat itself at a power of two.
fn byte_at(place: usize) -> u8 {
    (place % 251) as u8
}

fn text_of_many(alloc: Global) -> Result<Bytes, AllocError> {
    let mut bytes = Vec::new(alloc);
    for place in 0..MANY {
        bytes.push(byte_at(place))?;
    }
    Ok(Bytes::from_vec(bytes))
}

/// How many bytes the source gave before its end, if these are the text's first.
fn read_text<B: ByteSource>(source: &mut B) -> Option<usize> {
    let mut piece = [0; 1000];
    let mut place: usize = 0;
    for _ in 0..u64::MAX {
        match source.read(&mut piece) {
            ReadEnd::Got(n) => {
                for byte in &piece[..n] {
                    if *byte != byte_at(place) {
                        return None;
                    }
                    place = place.saturating_add(1);
                }
            }
            ReadEnd::End => return Some(place),
            ReadEnd::Failed | ReadEnd::Empty => return None,
        }
    }
    None
}

// Tells whether the put took all, and how many bytes were read.
fn tell_many(told: &mut Told, put: PutEnd, read: Option<usize>) {
    told.flag(put == PutEnd::All);
    told.count(read.unwrap_or(0) as u64);
}

/// `many`: what a file takes, and what is read of it again.
pub fn many(rt: &HostRuntime, told: &mut Told) -> Result<(), AllocError> {
    let name = name_of(told.alloc, "file:many")?;
    let text = text_of_many(told.alloc)?;
    tell_many(told, put_there(rt, &name, &text), read_there(rt, &name));
    Ok(())
}

fn put_there(rt: &HostRuntime, name: &Text, text: &Bytes) -> PutEnd {
    match RealEdges::new(rt).open_sink(name) {
        Ok(mut sink) => put_all(&mut sink, text),
        Err(_) => PutEnd::Failed(0),
    }
}

fn read_there(rt: &HostRuntime, name: &Text) -> Option<usize> {
    match RealEdges::new(rt).open_source(name) {
        Ok(mut source) => read_text(&mut source),
        Err(_) => None,
    }
}

// Tells what a fetch comes to, in a word.
fn tell_fetched<B: ByteSource>(told: &mut Told, lines: &mut LineSource<B>) {
    match &lines.fetch(9) {
        Ok(Fetched::Records(records)) => {
            told.add(" records:");
            told.number(records.as_slice().len() as u64);
        }
        Ok(Fetched::NotYet) => told.add(" not-yet"),
        Ok(Fetched::End) => told.add(" end"),
        Ok(Fetched::Fault) => told.add(" fault"),
        Ok(Fetched::TooLong) => told.add(" long"),
        Err(_) => told.cut(),
    }
}

/// `no_wait`: fetches of a connection that is set not to wait, with a write between them, and its end.
pub fn no_wait(rt: &HostRuntime, told: &mut Told) -> io::Result<()> {
    let (reader, writer) = UnixStream::pair(rt)?;
    reader.set_nonblocking(true)?;
    match LineSource::new(told.alloc, RealSource::new(reader)) {
        Ok(mut lines) => tell_fetches(told, &mut lines, RealOut::new(rt, writer)),
        Err(_) => told.add(" no memory"),
    }
    Ok(())
}

fn tell_fetches<B: ByteSource, K: ByteSink + Drop>(
    told: &mut Told,
    lines: &mut LineSource<B>,
    mut sink: K,
) {
    tell_fetched(told, lines);
    tell_wrote(told, sink.write(b"a\nb"));
    tell_fetched(told, lines);
    tell_fetched(told, lines);
    drop(sink);
    tell_fetched(told, lines);
    tell_fetched(told, lines);
}

/// `full_pipe`: what a connection takes that is set not to wait, and what a second thread reads of it.
pub fn full_pipe<R: Threads + Sync>(
    rt: &HostRuntime,
    threads: &R,
    told: &mut Told,
) -> io::Result<()> {
    let many = text_of_many(told.alloc)?;
    let (reader, writer) = UnixStream::pair(rt)?;
    writer.set_nonblocking(true)?;
    let mut sink = RealOut::new(rt, writer);
    let mut source = RealSource::new(reader);
    let (put, read) = thread::join(
        threads,
        move || put_all(&mut sink, &many),
        move || read_text(&mut source),
    );
    tell_many(told, put, read);
    Ok(())
}
