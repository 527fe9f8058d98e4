//! Reads and writes that are interrupted, would wait, fail or take nothing.

ghost use Rattle.std.specs.Prelude.{◌≤◌, IfOk};

use super::stories::{tell_read, tell_wrote};
use super::texts::number;
use file_socket_sinks::{RealOut, RealSource};
use pipe_edges::{ByteSink, ByteSource};
use std::alloc::{AllocError, Global};
use std::io;
use std::io::{ErrorKind, Read, Write};
use told_text::Told;

/// What one call answers: so many bytes, or an error of this kind.
#[derive(Clone, Copy)]
enum Act {
    Moves(usize),
    Fails(ErrorKind),
}

/// Plays its acts, a call each, and moves nothing after them.
#[derive(Drop)]
struct Player {
    acts: Vec<Act>,
    at: usize,
}

fn playing(alloc: Global, words: &str) -> Result<Player, AllocError> {
    let mut acts = Vec::new(alloc);
    for word in words.split_whitespace() {
        acts.push(act_of(word))?;
    }
    Ok(Player { acts, at: 0 })
}

// A number moves so many bytes, and another word is an error.
fn act_of(word: &str) -> Act {
    match word {
        "interrupted" => Act::Fails(ErrorKind::Interrupted),
        "would_block" => Act::Fails(ErrorKind::WouldBlock),
        "reset" => Act::Fails(ErrorKind::ConnectionReset),
        "early_end" => Act::Fails(ErrorKind::UnexpectedEof),
        "broken_pipe" => Act::Fails(ErrorKind::BrokenPipe),
        _ => Act::Moves(number(word)),
    }
}

impl Player {
    fn play(&mut self, room: usize) -> io::Result<usize>
        ensures { IfOk result (λ n. n ≤ room) }
    {
        let at = self.at;
        self.at = at.saturating_add(1);
        match self.acts.get(at) {
            Some(Act::Moves(n)) => Ok((*n).min(room)),
            Some(Act::Fails(kind)) => Err(io::Error::from(*kind)),
            None => Ok(0),
        }
    }
}

impl Read for Player {
    fn read(&mut self, piece: &mut [u8]) -> io::Result<usize> {
        self.play(piece.len())
    }
}

impl Write for Player {
    fn write(&mut self, piece: &[u8]) -> io::Result<usize> {
        self.play(piece.len())
    }

    fn flush(&mut self) -> io::Result<()> {
        Ok(())
    }
}

/// `read ACTS..`: what a read of 8 bytes comes to.
pub fn read(told: &mut Told, acts: &str) -> Result<(), AllocError> {
    let mut source = RealSource::new(playing(told.alloc, acts)?);
    let mut piece = [0; 8];
    tell_read(told, source.read(&mut piece));
    Ok(())
}

/// `write ACTS..`: what a write of 8 bytes comes to.
pub fn write(rt: &HostRuntime, told: &mut Told, acts: &str) -> Result<(), AllocError> {
    let mut sink = RealOut::new(rt, playing(told.alloc, acts)?);
    tell_wrote(told, sink.write(b"abcdefgh"));
    Ok(())
}
