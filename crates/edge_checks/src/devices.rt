//! Files and the clock of the system.

use super::names::tell_end;
use super::stories::{story, tell_read, tell_wrote};
use super::texts::{bytes_of, halves, name_of};
use file_socket_sinks::{RealClock, RealEdges};
use pipe_edges::{ByteSink, ByteSource, Clock, Edges, PutEnd, put_all};
use pipe_types::bytes::Text;
use std::alloc::AllocError;
use std::fs::Permissions;
use std::os::unix::fs::PermissionsExt;
use std::{fs, io};
use told_text::Told;

/// `device source NAME` or `device sink NAME`: what a read or a write of 8 bytes comes to. It is given back then.
pub fn device(rt: &HostRuntime, told: &mut Told, acts: &str) -> Result<(), AllocError> {
    let (kind, word) = halves(acts);
    let name = name_of(told.alloc, word)?;
    let mut edges = RealEdges::new(rt);
    if kind == "source" {
        read(told, &mut edges, &name)
    } else {
        write(told, &mut edges, &name)
    }
}

fn read(told: &mut Told, edges: &mut RealEdges, name: &Text) -> Result<(), AllocError> {
    let Ok(mut source) = edges.open_source(name) else {
        told.add(" no source");
        return Ok(());
    };
    let mut piece = [0; 8];
    tell_read(told, source.read(&mut piece));
    edges.back_source(name, source)
}

fn write(told: &mut Told, edges: &mut RealEdges, name: &Text) -> Result<(), AllocError> {
    let Ok(mut sink) = edges.open_sink(name) else {
        told.add(" no sink");
        return Ok(());
    };
    tell_wrote(told, sink.write(b"abcdefgh"));
    edges.back_sink(name, sink)
}

/// `open source NAME` or `open sink NAME`: how that ends.
pub fn open(rt: &HostRuntime, told: &mut Told, acts: &str) -> Result<(), AllocError> {
    let (kind, word) = halves(acts);
    let name = name_of(told.alloc, word)?;
    if kind == "source" {
        tell_source(rt, told, &name);
    } else {
        tell_sink(rt, told, &name);
    }
    Ok(())
}

/// Tells how the opening of the source ends.
pub fn tell_source(rt: &HostRuntime, told: &mut Told, name: &Text) {
    tell_end(told, &RealEdges::new(rt).open_source(name));
}

/// Tells how the opening of the sink ends.
pub fn tell_sink(rt: &HostRuntime, told: &mut Told, name: &Text) {
    tell_end(told, &RealEdges::new(rt).open_sink(name));
}

/// `whole PATH`: how many bytes are read of the file there.
pub fn whole(rt: &HostRuntime, told: &mut Told, word: &str) -> Result<(), AllocError> {
    let name = name_of(told.alloc, word)?;
    let read = RealEdges::new(rt).read_file(&name);
    match &read {
        Ok(bytes) => told.count(bytes.len() as u64),
        Err(_) => tell_end(told, &read),
    }
    Ok(())
}

// Root may open every file.
fn is_root(rt: &HostRuntime) -> io::Result<bool> {
    let status = fs::read_to_string(rt, "/proc/self/status")?;
    Ok(status.as_str().contains("\nUid:\t0\t"))
}

/// `locked`: whether a file that no one may open is opened for root alone, as a source and as a sink.
pub fn locked(rt: &HostRuntime, told: &mut Told) -> io::Result<()> {
    fs::write(rt, "locked", "x\n")?;
    fs::set_permissions(rt, "locked", Permissions::from_mode(0))?;
    let opens = is_root(rt)?;
    let name = name_of(told.alloc, "file:locked")?;
    told.flag(RealEdges::new(rt).open_source(&name).is_ok() == opens);
    told.flag(RealEdges::new(rt).open_sink(&name).is_ok() == opens);
    Ok(())
}

/// `kept`: what a file held is gone once it is opened as a sink, and each source reads it from the start.
pub fn kept(rt: &HostRuntime, told: &mut Told) -> io::Result<()> {
    fs::write(rt, "kept", "old lines\nof more bytes\n")?;
    let name = name_of(told.alloc, "file:kept")?;
    let bytes = bytes_of(told.alloc, "one$two$$half")?;
    match RealEdges::new(rt).open_sink(&name) {
        Ok(mut sink) => told.flag(put_all(&mut sink, &bytes) == PutEnd::All),
        Err(_) => told.add(" no sink"),
    }
    read_lines(rt, told, &name);
    read_lines(rt, told, &name);
    Ok(())
}

/// Opens the source and tells its story.
pub fn read_lines(rt: &HostRuntime, told: &mut Told, name: &Text) {
    match RealEdges::new(rt).open_source(name) {
        Ok(source) => story(told, source, 2, "?"),
        Err(_) => told.add(" no source"),
    }
}

/// `ticks`: whether the clock is later after two pauses.
pub fn ticks(rt: &HostRuntime, told: &mut Told) {
    let mut clock = RealClock::new(rt);
    let before = clock.now();
    clock.pause();
    clock.pause();
    told.flag(clock.now() > before);
}
