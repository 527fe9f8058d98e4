//! Connections over loopback. The system picks each port.

use super::devices::{tell_sink, tell_source};
use super::stories::{story, tell_read};
use super::texts::halves;
use file_socket_sinks::{Reader, RealEdges, RealSource};
use pipe_edges::{ByteSource, EdgeEnd, Edges, PutEnd, put_all};
use pipe_types::bytes::{Bytes, Text};
use std::io::Write;
use std::net::{TcpListener, TcpStream};
use std::rt::Clock as SystemClock;
use std::thread::Threads;
use std::time::Duration;
use std::{io, thread};
use told_text::Told;

/// How often a read of a peer waits depends on the machine.
const UNTOLD: &str = "";

/// How many bytes are more than the system keeps for a peer that reads none.
const MANY: usize = 33_554_432;

fn port_of(listener: &TcpListener) -> io::Result<u16> {
    Ok(listener.local_addr()?.port())
}

// A port that no one listens at.
fn free_port(rt: &HostRuntime) -> io::Result<u16> {
    port_of(&TcpListener::bind(rt, "127.0.0.1:0")?)
}

/// Two such ports.
pub fn free_ports(rt: &HostRuntime) -> io::Result<(u16, u16)> {
    let first = TcpListener::bind(rt, "127.0.0.1:0")?;
    let second = TcpListener::bind(rt, "127.0.0.1:0")?;
    Ok((port_of(&first)?, port_of(&second)?))
}

/// The name of a connection that is made or listened for there.
pub fn edge_at(rt: &HostRuntime, way: &str, host: &str, port: u16) -> io::Result<Text> {
    Ok(Text::from_string(format!(in rt.alloc(); "{way}:{host}:{port}")?))
}

// Sends the bytes to the port as soon as someone listens there, and closes. Whether it did.
fn send(rt: &HostRuntime, port: u16, bytes: &[u8]) -> bool {
    for _ in 0..10_000 {
        if let Ok(mut stream) = TcpStream::connect(rt, ("127.0.0.1", port)) {
            return stream.write_all(bytes).is_ok();
        }
        rt.sleep(Duration::from_millis(1));
    }
    false
}

/// `listen`: what a source reads that listens for one peer, whether the port is closed again, and whether the peer sent all.
pub fn listen<R: Threads + Sync>(rt: &HostRuntime, threads: &R, told: &mut Told) -> io::Result<()> {
    let own = *rt;
    let port = free_port(rt)?;
    let name = edge_at(rt, "listen", "127.0.0.1", port)?;
    let peer = thread::spawn(threads, move || send(&own, port, b"one\ntwo\n\nhalf"))?;
    let opened = RealEdges::new(rt).open_source(&name);
    told.flag(TcpStream::connect(rt, ("127.0.0.1", port)).is_err());
    if let Ok(source) = opened {
        story(told, source, 2, UNTOLD);
    }
    told.flag(peer.join(threads));
    Ok(())
}

// A listener on loopback, and the name of a connection to it.
fn listening(rt: &HostRuntime, own: &str, host: &str) -> io::Result<(TcpListener, Text)> {
    let listener = TcpListener::bind(rt, own)?;
    let port = port_of(&listener)?;
    Ok((listener, edge_at(rt, "connect", host, port)?))
}

/// `connect OWN HOST`: what a source reads that connects to this host, where the listener is bound to `OWN`.
pub fn connect(rt: &HostRuntime, told: &mut Told, acts: &str) -> io::Result<()> {
    let (own, host) = halves(acts);
    let (listener, name) = listening(rt, own, host)?;
    match RealEdges::new(rt).open_source(&name) {
        Ok(source) => {
            if !accept_and_send(listener, b"a\nb") {
                told.add(" no peer");
            }
            story(told, source, 2, UNTOLD);
        }
        Err(_) => told.add(" no source"),
    }
    Ok(())
}

// Accepts one connection, sends the bytes over it, and closes. Whether it did.
fn accept_and_send(listener: TcpListener, bytes: &[u8]) -> bool {
    match listener.accept() {
        Ok((mut stream, _)) => stream.write_all(bytes).is_ok(),
        Err(_) => false,
    }
}

/// `early`: what a source reads that was opened before a second thread accepts and sends, and whether that did.
pub fn early<R: Threads + Sync>(rt: &HostRuntime, threads: &R, told: &mut Told) -> io::Result<()> {
    let (listener, name) = listening(rt, "127.0.0.1:0", "127.0.0.1")?;
    // The system makes the connection before anyone accepts it, and no byte of it is there yet.
    let opened = RealEdges::new(rt).open_source(&name);
    let peer = thread::spawn(threads, move || accept_and_send(listener, b"one\ntwo\n"))?;
    match opened {
        Ok(source) => story(told, source, 2, UNTOLD),
        Err(_) => told.add(" no source"),
    }
    told.flag(peer.join(threads));
    Ok(())
}

/// `silent`: what a read of a peer that sent nothing comes to, and one after it sent three bytes; as the source of a stage,
/// and as that of control lines.
pub fn silent(rt: &HostRuntime, told: &mut Told) -> io::Result<()> {
    let (listener, name) = listening(rt, "127.0.0.1:0", "127.0.0.1")?;
    let mut edges = RealEdges::new(rt);
    let opened = edges.open_source(&name);
    read_twice(told, opened, &listener)?;
    let opened = edges.open_control(&name);
    read_twice(told, opened, &listener)
}

fn read_twice(
    told: &mut Told,
    opened: Result<RealSource<Reader>, EdgeEnd>,
    listener: &TcpListener,
) -> io::Result<()> {
    let (mut far, _) = listener.accept()?;
    let Ok(mut source) = opened else {
        told.add(" no source");
        return Ok(());
    };
    let mut piece = [0; 8];
    tell_read(told, source.read(&mut piece));
    far.write_all(b"abc")?;
    tell_read(told, source.read(&mut piece));
    Ok(())
}

/// `reset`: what a source reads of a peer that closes with bytes unread, which resets the connection.
pub fn reset(rt: &HostRuntime, told: &mut Told) -> io::Result<()> {
    let (near, far) = two_ends(rt)?;
    let source = RealSource::new(near.try_clone()?);
    leave_unread(told, near, far)?;
    story(told, source, 2, UNTOLD);
    Ok(())
}

// The two ends of a connection.
fn two_ends(rt: &HostRuntime) -> io::Result<(TcpStream, TcpStream)> {
    let listener = TcpListener::bind(rt, "127.0.0.1:0")?;
    let near = TcpStream::connect(rt, ("127.0.0.1", port_of(&listener)?))?;
    let (far, _) = listener.accept()?;
    Ok((near, far))
}

// Sends some bytes each way, tells whether those to the far end are there, and closes it.
fn leave_unread(told: &mut Told, mut near: TcpStream, mut far: TcpStream) -> io::Result<()> {
    far.write_all(b"one\nha")?;
    near.write_all(b"unread")?;
    let mut piece = [0; 8];
    told.flag(far.peek(&mut piece)? > 0);
    Ok(())
}

// Takes one connection, reads nothing of it, and closes it after a while.
fn take_and_close(rt: &HostRuntime, listener: TcpListener) -> bool {
    let accepted = listener.accept();
    rt.sleep(Duration::from_millis(100));
    accepted.is_ok()
}

/// `hang_up`: whether a put to a peer that reads nothing and closes fails after some bytes, and whether the peer accepted.
pub fn hang_up<R: Threads + Sync>(
    rt: &HostRuntime,
    threads: &R,
    told: &mut Told,
) -> io::Result<()> {
    let own = *rt;
    let (listener, name) = listening(rt, "127.0.0.1:0", "127.0.0.1")?;
    let many = Bytes::from_vec(vec![in rt.alloc(); b'x'; MANY]?);
    let peer = thread::spawn(threads, move || take_and_close(&own, listener))?;
    match RealEdges::new(rt).open_sink(&name) {
        Ok(mut sink) => told.flag(matches!(put_all(&mut sink, &many), PutEnd::Failed(n) if 0 < n)),
        Err(_) => told.add(" no sink"),
    }
    told.flag(peer.join(threads));
    Ok(())
}

/// `refused`: how the opening of a source and of a sink ends at a port where no one listens.
pub fn refused(rt: &HostRuntime, told: &mut Told) -> io::Result<()> {
    let name = edge_at(rt, "connect", "127.0.0.1", free_port(rt)?)?;
    tell_source(rt, told, &name);
    tell_sink(rt, told, &name);
    Ok(())
}
