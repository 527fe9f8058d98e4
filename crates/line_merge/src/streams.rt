//! The sources of a merge with their lines.

ghost use Rattle.std.specs.Prelude.{◌≡◌, ◌≤◌, ◌+◌, ◌++◌, [], IfOk, IfErr, OnOk, length, map, reverse, vec_capacity};
ghost use Rattle.line_merge.specs.Opening.{AreNew, source_in};

use crate::stream::Stream;
use pipe_edges::ByteSource;
use std::alloc::{AllocError, Global};

// Each of the sources, the last one first, becomes the next one with its lines.
fn open_each<B: ByteSource>(
    alloc: Global,
    sources: &mut Vec<B>,
    streams: &mut Vec<Stream<B>>,
) -> Result<(), AllocError>
    requires room { length streams.old.items + length sources.old.items ≤ vec_capacity streams.old }
    requires open { AreNew streams.old.items }
    ensures same { map source_in streams.new.items ++ reverse sources.new.items ≡ map source_in streams.old.items ++ reverse sources.old.items }
    ensures open { AreNew streams.new.items }
    ensures capacity { vec_capacity sources.new ≡ vec_capacity sources.old }
    ensures count { length streams.new.items + length sources.new.items ≡ length streams.old.items + length sources.old.items }
    ensures all { OnOk result (sources.new.items ≡ []) }
{
    while let Some(source) = sources.pop() {
        match Stream::new(alloc, source) {
            Ok(stream) => streams.push_reserved(stream),
            Err((source, e)) => {
                sources.push_reserved(source);
                return Err(e);
            }
        }
    }
    Ok(())
}

// Each of them, the last one first, becomes the next source again.
fn close_each<B: ByteSource>(streams: &mut Vec<Stream<B>>, sources: &mut Vec<B>)
    requires room { length streams.old.items + length sources.old.items ≤ vec_capacity sources.old }
    ensures same { reverse sources.new.items ≡ map source_in streams.old.items ++ reverse sources.old.items }
{
    while let Some(stream) = streams.pop() {
        sources.push_reserved(stream.into_inner());
    }
}

/// The sources with their lines, and the room of the list in which they came. For want of memory they come back as they were.
pub(crate) fn open_all<B: ByteSource + Drop>(
    alloc: Global,
    sources: Vec<B>,
) -> Result<(Vec<Stream<B>>, Vec<B>), (Vec<B>, AllocError)>
    ensures sources { IfOk result (λ r. map source_in r.0.items ≡ sources.items) }
    ensures open { IfOk result (λ r. AreNew r.0.items) }
    ensures room { IfOk result (λ r. (r.1.items ≡ []) × (length r.0.items ≤ vec_capacity r.1)) }
    ensures err { IfErr result (λ e. e.0.items ≡ sources.items) }
{
    let mut streams = match Vec::with_capacity(alloc, sources.len()) {
        Ok(streams) => streams,
        Err(e) => return Err((sources, e)),
    };
    let mut rest = sources;
    rest.reverse();
    match open_each(alloc, &mut rest, &mut streams) {
        Ok(()) => Ok((streams, rest)),
        Err(e) => {
            close_each(&mut streams, &mut rest);
            rest.reverse();
            Err((rest, e))
        }
    }
}

/// The sources in order, in this room.
pub(crate) fn close_all<B: ByteSource + Drop>(streams: Vec<Stream<B>>, room: Vec<B>) -> Vec<B>
    requires empty { room.items ≡ [] }
    requires roomy { length streams.items ≤ vec_capacity room }
    ensures { result.items ≡ map source_in streams.items }
{
    let mut streams = streams;
    let mut sources = room;
    close_each(&mut streams, &mut sources);
    sources.reverse();
    sources
}
