//! Files, connections and the standard streams as sinks.

ghost use Rattle.std.specs.{Prelude.{◌≡◌, ◌≢◌, [], false, ℕ, List, IfOk, IfErr}, Io.{WritesAtMost}, IoError.{error_kind}};
ghost use Rattle.file_socket_sinks.specs.Names.{IsSinkName};

use crate::names::SinkName;
use crate::opened::OpenFiles;
use pipe_edges::{ByteSink, WriteEnd};
use std::fs::{File, OpenOptions};
use std::io;
use std::io::{ErrorKind, Stderr, Stdout, Write};
use std::net::TcpStream;
use std::rt::Clock as SystemClock;
use std::time::Duration;

/// How long it is until a write that would wait is tried again.
const RETRY_MS: u64 = 1;

/// A file, a connection or one of the standard streams.
#[derive(Drop)]
pub enum Writer {
    File(File),
    Connection(TcpStream),
    Output(Stdout),
    Error(Stderr),
}

// A file that is made new or emptied. One that is open already is left as it is.
fn open_file(rt: &HostRuntime, opened: &mut OpenFiles, path: &str) -> io::Result<File> {
    let file = OpenOptions::new().write(true).create(true).open(rt, path)?;
    let metadata = file.metadata()?;
    if metadata.is_file() {
        opened.add_sink(rt, &metadata)?;
        file.set_len(0)?;
    }
    Ok(file)
}

impl Writer {
    /// Opens what the name of a sink says: a file is made new or emptied. What is open already is `ResourceBusy`, and
    /// a name of another form `InvalidInput`.
    pub fn open(rt: &HostRuntime, opened: &mut OpenFiles, name: &str) -> io::Result<Writer>
        ensures { IfOk result (λ _. IsSinkName name.now) }
    {
        match SinkName::parse(name) {
            Some(SinkName::File(path)) => Ok(Writer::File(open_file(rt, opened, path)?)),
            Some(SinkName::Connect(peer)) => Ok(Writer::Connection(peer.connect(rt)?)),
            None => Err(io::Error::from(ErrorKind::InvalidInput)),
        }
    }
}

impl Write for Writer {
    fn write(&mut self, piece: &[u8]) -> io::Result<usize> {
        match self {
            Writer::File(file) => file.write(piece),
            Writer::Connection(stream) => stream.write(piece),
            Writer::Output(out) => out.write(piece),
            Writer::Error(err) => err.write(piece),
        }
    }

    fn flush(&mut self) -> io::Result<()> {
        Ok(())
    }
}

// Writes, and writes again where a signal interrupted it or it would wait: so many times as no run lives to see.
fn write_on<W: Write>(rt: &HostRuntime, writer: &mut W, piece: &[u8]) -> io::Result<usize>
    ensures count { WritesAtMost result piece.now }
    ensures goes_on { IfErr result (λ e. error_kind e ≢ ErrorKind.Interrupted) }
    ensures waits { IfErr result (λ e. error_kind e ≢ ErrorKind.WouldBlock) }
{
    for _ in 0..u64::MAX {
        match writer.write(piece) {
            Err(e) if e.kind() == ErrorKind::Interrupted => {}
            Err(e) if e.kind() == ErrorKind::WouldBlock => {
                rt.sleep(Duration::from_millis(RETRY_MS));
            }
            wrote => return wrote,
        }
    }
    Err(io::Error::from(ErrorKind::TimedOut))
}

/// A sink that writes to the system. It tells no bytes, and counts each write that failed or took nothing; one that
/// would wait is tried again. A write fails too where nobody reads the pipe or the connection any more: a program of
/// this kit is not ended by SIGPIPE.
#[derive(Drop)]
pub struct RealOut<W> {
    rt: HostRuntime,
    writer: W,
    faults: u64,
}

impl<W: Write> RealOut<W> {
    /// Writes on from where the writer stands.
    pub fn new(rt: &HostRuntime, writer: W) -> RealOut<W>
        ensures { ⟦<RealOut<W> as ByteSink>⟧.faults result ≡ 0 }
    {
        RealOut {
            rt: *rt,
            writer,
            faults: 0,
        }
    }
}

impl RealOut<Writer> {
    pub fn standard_output(rt: &HostRuntime) -> RealOut<Writer>
        ensures { ⟦<RealOut<Writer> as ByteSink>⟧.faults result ≡ 0 }
    {
        RealOut::new(rt, Writer::Output(rt.stdout()))
    }

    pub fn standard_error(rt: &HostRuntime) -> RealOut<Writer>
        ensures { ⟦<RealOut<Writer> as ByteSink>⟧.faults result ≡ 0 }
    {
        RealOut::new(rt, Writer::Error(rt.stderr()))
    }
}

impl<W: Write> ByteSink for RealOut<W> {
    ghost told = { λ _. false };

    ghost held = { λ _. [] };

    ghost faults = { λ s. s.faults };

    fn write(&mut self, piece: &[u8]) -> WriteEnd {
        match write_on(&self.rt, &mut self.writer, piece) {
            Ok(n) if n > 0 => WriteEnd::Took(n),
            _ => {
                self.faults = self.faults.saturating_add(1);
                WriteEnd::Failed
            }
        }
    }
}
