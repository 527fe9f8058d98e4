//! The bytes that were read and stand behind the lines that were handed out.

ghost use Rattle.std.specs.Prelude.{◌≡◌, ◌<◌, ◌≤◌, ◌+◌, ◌++◌, [], List, ℕ, length, take, drop, vec_len, IsTrue, IfOk, IfSome, IfNone, OnErr, All};
ghost use Rattle.pipe_edges.specs.{Texts.{HasNoLf, IsLine, ended}, Cut.{EndsAt, IsSearched, CutsLines, CutsAll}, Handed.{Handed}, Reads.{ReadHasCause}, Held.{ReadGrows}};
ghost use Rattle.pipe_edges.specs.Pacing.{ReadIsHeld};

use crate::{ByteSource, ReadEnd};
use memchr::memchr;
use pipe_types::bytes::{Bytes, BytesList};
use std::alloc::{AllocError, Global};
use std::marker::Model;
use std::mem;

/// The most bytes of a line, without its LF.
pub const MAX_LINE: usize = 65536;

/// How many bytes a read is offered.
const PIECE: usize = 8192;

// How many lines a cut makes room for at first.
const FIRST_LINES: usize = 32;

// The place of the first LF, where no LF stands in the bytes that were searched before.
fn line_end(bytes: &[u8], searched: usize) -> Option<usize>
    requires { IsSearched bytes.now searched }
    ensures found { IfSome result (EndsAt bytes.now) }
    ensures none { IfNone result (HasNoLf bytes.now) }
{
    match memchr(b'\n', &bytes[searched..]) {
        Some(at) => Some(searched + at),
        None => None,
    }
}

// The lines in front, how many bytes they take with their LFs, and how many bytes behind them are searched.
#[derive(Drop)]
struct CutLines {
    records: Vec<Bytes>,
    used: usize,
    searched: usize,
}

// Cuts whole lines off the front, at most so many.
fn cut(alloc: Global, bytes: &[u8], searched: usize, max: u32) -> Result<CutLines, AllocError>
    requires { IsSearched bytes.now searched }
    ensures lines { IfOk result (λ c. CutsLines bytes.now c.records.items c.used c.searched) }
    ensures all { IfOk result (λ c. CutsAll max c.records.items (drop c.used bytes.now)) }
{
    let mut records = Vec::with_capacity(alloc, FIRST_LINES.min(max as usize))?;
    let mut used = 0;
    let mut searched = searched;
    for _ in 0..max {
        let rest = &bytes[used..];
        match line_end(rest, searched) {
            Some(at) if at <= MAX_LINE => {
                records.push(Bytes::from_vec(Vec::from_slice(alloc, &rest[..at])?))?;
                used += at + 1;
                searched = 0;
            }
            Some(_) => break,
            None => {
                searched = rest.len();
                break;
            }
        }
    }
    Ok(CutLines {
        records,
        used,
        searched,
    })
}

// Moves what stands behind the first n bytes to the front.
fn drop_front(bytes: &mut Vec<u8>, n: usize)
    requires { n ≤ vec_len bytes.old }
    ensures { bytes.new.items ≡ drop n bytes.old.items }
{
    if n > 0 {
        bytes.copy_within(n.., 0);
        bytes.truncate(bytes.len() - n);
    }
}

// A buffer whose bytes behind `start` are held; of these the first `searched` have no LF. So each byte is searched
// once, and moved at most once, when more is read.
#[derive(Drop)]
pub struct Held {
    alloc: Global,
    piece: Vec<u8>,
    bytes: Vec<u8>,
    start: usize,
    searched: usize,
}

impl Model for Held {
    ghost use Rattle.std.specs.Prelude.{◌≡◌, ◌≤◌, List, ℕ, length, drop};
    ghost use Rattle.pipe_edges.specs.Cut.{IsSearched};

    ghost Value = { List ℕ };

    ghost view = { λ h. drop h.start h.bytes.items };

    ghost invariant = { λ h. (h.start ≤ length h.bytes.items)
        × (length h.piece.items ≡ 8192)
        × IsSearched (drop h.start h.bytes.items) h.searched };
}

impl Held {
    pub fn new(alloc: Global) -> Result<Held, AllocError>
        ensures { IfOk result (λ h. h ≡ []) }
    {
        let mut piece = Vec::new(alloc);
        piece.resize(PIECE, 0)?;
        Ok(Held {
            alloc,
            piece,
            bytes: Vec::new(alloc),
            start: 0,
            searched: 0,
        })
    }

    pub fn len(&self) -> usize
        ensures { result ≡ length self.now }
    {
        self.bytes.len() - self.start
    }

    // Takes whole lines off the front, at most so many. For want of memory nothing is taken.
    pub fn take_lines(&mut self, max: u32) -> Result<BytesList, AllocError>
        ensures err { OnErr result (self.new ≡ self.old) }
        ensures lines { IfOk result (λ r. (self.old ≡ ended r ++ self.new) × All IsLine r) }
        ensures all { IfOk result (λ r. CutsAll max r self.new) }
    {
        let CutLines {
            records,
            used,
            searched,
        } = cut(self.alloc, &self.bytes[self.start..], self.searched, max)?;
        self.start += used;
        self.searched = searched;
        Ok(BytesList::from_vec(records))
    }

    // Takes all that is held.
    pub fn take_all(&mut self) -> Bytes
        ensures taken { result ≡ self.old }
        ensures empty { self.new ≡ [] }
    {
        drop_front(&mut self.bytes, self.start);
        self.start = 0;
        self.searched = 0;
        Bytes::from_vec(mem::replace(&mut self.bytes, Vec::new(self.alloc)))
    }

    // Reads once from the source. For want of memory nothing is read.
    pub fn read_from<B: ByteSource>(&mut self, source: &mut B) -> Result<ReadEnd, AllocError>
        ensures err { OnErr result ((self.new ≡ self.old) × (source.new ≡ source.old)) }
        ensures handed { Handed B.ByteSource source.old source.new self.old self.new [] }
        ensures grows { IfOk result (ReadGrows (B.told source.old) self.old self.new (B.left source.new)) }
        ensures cause { IfOk result (ReadHasCause (B.faults source.old) (B.faults source.new)
            (B.waits source.old) (B.waits source.new)) }
        ensures at_most { length self.new ≤ length self.old + 8192 }
        ensures paced { IfOk result (ReadIsHeld B.ByteSource source.old source.new self.old self.new) }
    {
        drop_front(&mut self.bytes, self.start);
        self.start = 0;
        self.bytes.reserve(PIECE)?;
        let end = source.read(&mut self.piece);
        if let ReadEnd::Got(n) = end {
            if self.bytes.extend_from_slice(&self.piece[..n]).is_err() {
                unreachable!();
            }
        }
        Ok(end)
    }
}
