//! Files, standard input and connections as sources.

ghost use Rattle.std.specs.{Prelude.{◌≡◌, ◌≢◌, [], false, ℕ, List, length, IfOk, IfErr}, Io.{ReadsAtMost}, IoError.{error_kind}};
ghost use Rattle.file_socket_sinks.specs.{Came.{ReadCameTo}, Names.{IsSourceName}};

use crate::arrivals::Noted;
use crate::names::SourceName;
use crate::opened::OpenFiles;
use crate::waits::{OF_STREAMS, Patience, Waits};
use pipe_edges::{ByteSource, ReadEnd};
use std::fs::File;
use std::io;
use std::io::{ErrorKind, Read, Stdin};
use std::net::{TcpListener, TcpStream};
use std::os::fd::{AsRawFd, RawFd};

/// A file, a connection or standard input. A listener becomes the connection of the peer that comes first.
#[derive(Drop)]
enum Stream {
    File(File),
    Connection(TcpStream),
    Listener(TcpListener, Noted),
    Input(Stdin),
}

impl AsRawFd for Stream {
    fn as_raw_fd(&self) -> RawFd {
        match self {
            Stream::File(file) => file.as_raw_fd(),
            Stream::Connection(stream) => stream.as_raw_fd(),
            Stream::Listener(listener, _) => listener.as_raw_fd(),
            Stream::Input(input) => input.as_raw_fd(),
        }
    }
}

impl Read for Stream {
    fn read(&mut self, piece: &mut [u8]) -> io::Result<usize> {
        match self {
            Stream::File(file) => file.read(piece),
            Stream::Connection(stream) => stream.read(piece),
            Stream::Listener(listener, noted) => {
                let mut connection = meet(listener)?;
                noted.add(connection.as_raw_fd());
                let read = connection.read(piece);
                *self = Stream::Connection(connection);
                read
            }
            Stream::Input(input) => input.read(piece),
        }
    }
}

// The connection of the peer that came first, where one came and is not gone again; else it is `WouldBlock`.
fn meet(listener: &TcpListener) -> io::Result<TcpStream> {
    match listener.accept() {
        Ok((connection, _)) => {
            connection.set_nonblocking(true)?;
            Ok(connection)
        }
        Err(e) if e.kind() == ErrorKind::ConnectionAborted => {
            Err(io::Error::from(ErrorKind::WouldBlock))
        }
        Err(e) => Err(e),
    }
}

/// A file, a connection or standard input, of which a read waits no longer than its patience lasts: then it is
/// `WouldBlock`. A regular file is read at once.
#[derive(Drop)]
pub struct Reader {
    stream: Stream,
    waits: Option<Waits>,
}

impl Reader {
    /// Opens what the name of a source says, and waits for the peer where that is a connection. Of a listener's
    /// connections one is accepted. What is open already is `ResourceBusy`, and a name of another form `InvalidInput`.
    pub fn open(
        rt: &HostRuntime,
        opened: &mut OpenFiles,
        name: &str,
        patience: Patience,
    ) -> io::Result<Reader>
        ensures { IfOk result (λ _. IsSourceName name.now) }
    {
        let stream = match SourceName::parse(name) {
            Some(SourceName::File(path)) => {
                let file = File::open(rt, path)?;
                opened.add_source(&file.metadata()?)?;
                Stream::File(file)
            }
            Some(SourceName::Input) => {
                opened.add_input(rt)?;
                Stream::Input(rt.stdin())
            }
            Some(SourceName::Connect(peer)) => Stream::Connection(peer.connect(rt)?),
            Some(SourceName::Listen(own)) => Stream::Connection(own.accept(rt)?),
            None => return Err(io::Error::from(ErrorKind::InvalidInput)),
        };
        let waits = Waits::new(rt, stream.as_raw_fd(), patience)?;
        Ok(Reader { stream, waits })
    }

    /// Opens what the name of one of several sources that are read in turn says, and notes it. No read waits, nor does it wait
    /// for the peer of a listener, which a later read accepts.
    pub fn open_stream(
        rt: &HostRuntime,
        opened: &mut OpenFiles,
        noted: &Noted,
        name: &str,
    ) -> io::Result<Reader>
        ensures { IfOk result (λ _. IsSourceName name.now) }
    {
        let reader = match SourceName::parse(name) {
            Some(SourceName::Listen(own)) => Reader::listening(own.listen(rt)?, noted)?,
            Some(SourceName::Connect(peer)) => Reader::connected(peer.connect(rt)?)?,
            _ => Reader::open(rt, opened, name, OF_STREAMS)?,
        };
        noted.add(reader.as_raw_fd());
        Ok(reader)
    }

    fn listening(listener: TcpListener, noted: &Noted) -> io::Result<Reader> {
        listener.set_nonblocking(true)?;
        Ok(Reader {
            stream: Stream::Listener(listener, noted.share()),
            waits: None,
        })
    }

    fn connected(connection: TcpStream) -> io::Result<Reader> {
        connection.set_nonblocking(true)?;
        Ok(Reader {
            stream: Stream::Connection(connection),
            waits: None,
        })
    }
}

impl AsRawFd for Reader {
    fn as_raw_fd(&self) -> RawFd {
        self.stream.as_raw_fd()
    }
}

impl Read for Reader {
    fn read(&mut self, piece: &mut [u8]) -> io::Result<usize> {
        if let Some(waits) = &mut self.waits
            && !waits.is_ready(self.stream.as_raw_fd())?
        {
            return Err(io::Error::from(ErrorKind::WouldBlock));
        }
        self.stream.read(piece)
    }
}

// Reads, and reads again where a signal interrupted it: so many times as no run lives to see.
fn read_on<R: Read>(reader: &mut R, piece: &mut [u8]) -> io::Result<usize>
    ensures same_room { length piece.new ≡ length piece.old }
    ensures count { ReadsAtMost result piece.new }
    ensures goes_on { IfErr result (λ e. error_kind e ≢ ErrorKind.Interrupted) }
{
    for _ in 0..u64::MAX {
        match reader.read(piece) {
            Err(e) if e.kind() == ErrorKind::Interrupted => {}
            read => return read,
        }
    }
    Err(io::Error::from(ErrorKind::TimedOut))
}

/// What a read of the system came to: no bytes are the end, and an error is none.
pub fn read_end(read: io::Result<usize>) -> ReadEnd
    ensures { ReadCameTo read result }
{
    match read {
        Ok(0) => ReadEnd::End,
        Ok(n) => ReadEnd::Got(n),
        Err(e) if e.kind() == ErrorKind::WouldBlock => ReadEnd::Empty,
        Err(_) => ReadEnd::Failed,
    }
}

/// A source that reads the system. It tells no bytes, and counts each read that failed and each that would wait. A
/// connection that its peer closes ends; one that is reset fails.
#[derive(Drop)]
pub struct RealSource<R> {
    reader: R,
    faults: u64,
    waits: u64,
}

impl<R: Read> RealSource<R> {
    /// Reads on from where the reader stands.
    pub fn new(reader: R) -> RealSource<R>
        ensures no_fault { ⟦<RealSource<R> as ByteSource>⟧.faults result ≡ 0 }
        ensures no_wait { ⟦<RealSource<R> as ByteSource>⟧.waits result ≡ 0 }
    {
        RealSource {
            reader,
            faults: 0,
            waits: 0,
        }
    }
}

impl<R: Read> ByteSource for RealSource<R> {
    ghost told = { λ _. false };

    ghost taken = { λ _. [] };

    ghost left = { λ _. [] };

    ghost faults = { λ s. s.faults };

    ghost waits = { λ s. s.waits };

    fn read(&mut self, piece: &mut [u8]) -> ReadEnd {
        let end = read_end(read_on(&mut self.reader, piece));
        match end {
            ReadEnd::Failed => self.faults = self.faults.saturating_add(1),
            ReadEnd::Empty => self.waits = self.waits.saturating_add(1),
            ReadEnd::Got(_) | ReadEnd::End => {}
        }
        end
    }

    fn at(&mut self, now: u64) {
        let _ = now;
    }
}
