//! What the system has by name.

ghost use Rattle.std.specs.Prelude.{◌≡◌, ◌≤◌, [], false, ℕ, List};
ghost use Rattle.pipe_edges.specs.Named.{AddsBack, EdgeHasCause, KeepsBack};
ghost use Rattle.file_socket_sinks.specs.{Back.{given_in}, Came.{OpenCameTo}};

use crate::arrivals::Noted;
use crate::opened::OpenFiles;
use crate::output::{RealOut, Writer};
use crate::source::{Reader, RealSource};
use crate::waits::{OF_CONTROL, OF_STAGES};
use pipe_edges::{EdgeEnd, Edges, MAX_FILE_BYTES};
use pipe_types::bytes::{Bytes, Text};
use std::alloc::{AllocError, Global};
use std::fs::File;
use std::io;
use std::io::{ErrorKind, Read};
use std::os::fd::AsRawFd;

/// Something that was given back, with its name.
#[derive(Drop)]
pub struct GivenBack<T> {
    pub name: Text,
    pub item: T,
}

// Keeps what is given back under its name. For want of memory it is let go.
fn keep<T: Drop>(
    alloc: Global,
    kept: &mut Vec<GivenBack<T>>,
    name: &Text,
    item: T,
) -> Result<(), AllocError>
    ensures { AddsBack result (name.now, item) (given_in kept.old.items) (given_in kept.new.items) }
{
    let name = Text::from_string(String::from_str(alloc, name.as_str())?);
    kept.push(GivenBack { name, item })?;
    Ok(())
}

// What was opened, or why nothing was. Each failure is counted, and want of memory is not.
fn count<T: Drop>(faults: &mut u64, opened: io::Result<T>) -> Result<T, EdgeEnd>
    ensures came { OpenCameTo opened result }
    ensures cause { EdgeHasCause faults.old faults.new result }
    ensures stays { faults.old ≤ faults.new }
{
    match opened {
        Ok(opened) => Ok(opened),
        Err(e) if e.kind() == ErrorKind::OutOfMemory => Err(EdgeEnd::OutOfMemory),
        Err(_) => {
            *faults = faults.saturating_add(1);
            Err(EdgeEnd::Failed)
        }
    }
}

/// What the system has by name. Sources are `file:PATH`, read from the start, `stdin:`, `connect:HOST:PORT`, and
/// `listen:HOST:PORT`, of which one connection is accepted at opening; sinks are `file:PATH`, made new or emptied, and
/// `connect:HOST:PORT`; the name of a file to read whole is its path. Every other name fails, and so does the name of
/// a regular file that is open already, of a FIFO that is read, or of standard input a second time. It tells no bytes
/// and no calls, counts each failure, and keeps what is given back until it is dropped, which closes it.
#[derive(Drop)]
pub struct RealEdges {
    rt: HostRuntime,
    faults: u64,
    opened: OpenFiles,
    noted: Noted,
    sources: Vec<GivenBack<RealSource<Reader>>>,
    sinks: Vec<GivenBack<RealOut<Writer>>>,
}

impl RealEdges {
    pub fn new(rt: &HostRuntime) -> RealEdges
        ensures no_fault { ⟦<RealEdges as Edges>⟧.faults result ≡ 0 }
        ensures no_source { ⟦<RealEdges as Edges>⟧.sources_back result ≡ [] }
        ensures no_sink { ⟦<RealEdges as Edges>⟧.sinks_back result ≡ [] }
    {
        RealEdges {
            rt: *rt,
            faults: 0,
            opened: OpenFiles::new(rt.alloc()),
            noted: Noted::none(),
            sources: Vec::new(rt.alloc()),
            sinks: Vec::new(rt.alloc()),
        }
    }

    // Notes there the streams that are opened from now on and whose reads do not wait.
    pub(crate) fn note_in(&mut self, noted: Noted)
        ensures faults { ⟦<RealEdges as Edges>⟧.faults self.new ≡ ⟦<RealEdges as Edges>⟧.faults self.old }
        ensures back { KeepsBack ⟦<RealEdges as Edges>⟧.sources_back ⟦<RealEdges as Edges>⟧.sinks_back self.old self.new }
    {
        self.noted = noted;
    }

    fn bytes_of(&self, path: &str) -> io::Result<Bytes> {
        let mut bytes = Vec::new(self.rt.alloc());
        File::open(&self.rt, path)?
            .take(MAX_FILE_BYTES as u64)
            .read_to_end(&mut bytes)?;
        Ok(Bytes::from_vec(bytes))
    }
}

impl Edges for RealEdges {
    type Source = RealSource<Reader>;

    type Sink = RealOut<Writer>;

    type Out = RealOut<Writer>;

    ghost told = { λ _. false };

    ghost named = { λ _ _ _. [] };

    ghost asked = { λ _. [] };

    ghost faults = { λ e. e.faults };

    ghost sources_back = { λ e. given_in e.sources.items };

    ghost sinks_back = { λ e. given_in e.sinks.items };

    fn open_source(&mut self, name: &Text) -> Result<RealSource<Reader>, EdgeEnd> {
        let reader = Reader::open(&self.rt, &mut self.opened, name.as_str(), OF_STAGES);
        Ok(RealSource::new(count(&mut self.faults, reader)?))
    }

    fn open_control(&mut self, name: &Text) -> Result<RealSource<Reader>, EdgeEnd> {
        let reader = Reader::open(&self.rt, &mut self.opened, name.as_str(), OF_CONTROL);
        let reader = count(&mut self.faults, reader)?;
        self.noted.add(reader.as_raw_fd());
        Ok(RealSource::new(reader))
    }

    fn open_stream(&mut self, name: &Text) -> Result<RealSource<Reader>, EdgeEnd> {
        let reader = Reader::open_stream(&self.rt, &mut self.opened, &self.noted, name.as_str());
        Ok(RealSource::new(count(&mut self.faults, reader)?))
    }

    fn open_sink(&mut self, name: &Text) -> Result<RealOut<Writer>, EdgeEnd> {
        let writer = Writer::open(&self.rt, &mut self.opened, name.as_str());
        let writer = count(&mut self.faults, writer)?;
        Ok(RealOut::new(&self.rt, writer))
    }

    fn read_file(&mut self, name: &Text) -> Result<Bytes, EdgeEnd> {
        let bytes = self.bytes_of(name.as_str());
        count(&mut self.faults, bytes)
    }

    fn back_source(&mut self, name: &Text, source: RealSource<Reader>) -> Result<(), AllocError> {
        keep(self.rt.alloc(), &mut self.sources, name, source)
    }

    fn back_sink(&mut self, name: &Text, sink: RealOut<Writer>) -> Result<(), AllocError> {
        keep(self.rt.alloc(), &mut self.sinks, name, sink)
    }
}
