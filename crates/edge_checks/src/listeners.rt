//! Listeners that are read in turn, and the pauses between their reads.

use super::connections::{edge_at, free_ports};
use super::stories::tell_read;
use file_socket_sinks::{Reader, RealClock, RealEdges, RealSource};
use pipe_edges::{ByteSource, Clock, Edges, ReadEnd};
use std::io;
use std::io::Write;
use std::net::TcpStream;
use told_text::Told;

/// A pause that is longer than a program may run.
const LONG_MS: u64 = 600_000;

/// A listener or what became of it.
type Source = RealSource<Reader>;

/// `several`: what reads of two listeners come to before a peer is there; of the first, and of the second, when one is at the
/// second and says nothing; of the second when that peer speaks and when it is gone, where each read that finds nothing is
/// followed by a long pause; and whether the first is still listened at.
pub fn several(rt: &HostRuntime, told: &mut Told) -> io::Result<()> {
    let mut edges = RealEdges::new(rt);
    let mut clock = RealClock::woken_by(rt, &mut edges);
    let (first, second) = free_ports(rt)?;
    let one = edges.open_stream(&edge_at(rt, "listen", "127.0.0.1", first)?);
    let other = edges.open_stream(&edge_at(rt, "listen", "127.0.0.1", second)?);
    match (one, other) {
        (Ok(mut one), Ok(mut other)) => {
            read_now(told, &mut one);
            read_now(told, &mut other);
            let far = TcpStream::connect(rt, ("127.0.0.1", second))?;
            read_now(told, &mut one);
            read_now(told, &mut other);
            hear(told, &mut clock, &mut other, far)?;
            told.flag(TcpStream::connect(rt, ("127.0.0.1", first)).is_ok());
            told.flag(TcpStream::connect(rt, ("127.0.0.1", second)).is_err());
        }
        _ => told.add(" no source"),
    }
    Ok(())
}

fn hear(
    told: &mut Told,
    clock: &mut RealClock,
    source: &mut Source,
    mut far: TcpStream,
) -> io::Result<()> {
    far.write_all(b"abc")?;
    tell_read(told, awaited(clock, source));
    drop(far);
    tell_read(told, awaited(clock, source));
    Ok(())
}

fn read_now(told: &mut Told, source: &mut Source) {
    let mut piece = [0; 8];
    tell_read(told, source.read(&mut piece));
}

/// Reads until something is there, with a pause behind each read that found nothing.
fn awaited(clock: &mut RealClock, source: &mut Source) -> ReadEnd {
    let mut piece = [0; 8];
    for _ in 0..1000 {
        let read = source.read(&mut piece);
        if read != ReadEnd::Empty {
            return read;
        }
        clock.pause_for(LONG_MS);
    }
    ReadEnd::Empty
}
