//! A text that goes to a sink of bytes in pieces.

ghost use Rattle.std.specs.Prelude.{◌≡◌, ◌≤◌, ◌++◌, List, ℕ, [], false, true, IsTrue};
ghost use Rattle.pipe_types.specs.Counts.{Rose};
ghost use Rattle.journal_texts.specs.{Streams.{Begun, IsStreamed}, StreamsOf.{stream_seen}};
ghost use Rattle.journal_texts.specs.Steps.{journal_text as text_of_journal};

use crate::lines::put_journal;
use crate::sink::TextSink;
use pipe_edges::{ByteSink, WriteEnd};
use pipe_journal::Journal;
use std::alloc::Global;

/// How many bytes are gathered before they are written.
const PIECE: usize = 8192;

// A sink, and the bytes for it that are not written yet. After a fault no more is written.
#[derive(Drop)]
struct TextStream<'a, K> {
    sink: &'a mut K,
    piece: &'a mut Vec<u8>,
    failed: bool,
}

// Writes all the bytes, and answers whether that did not fail.
fn write_bytes<K: ByteSink>(sink: &mut K, bytes: &[u8]) -> bool
    ensures same_telling { K.told sink.new ≡ K.told sink.old }
    ensures faults_stay { K.faults sink.old ≤ K.faults sink.new }
    ensures whole { result ≡ true → IsTrue (K.told sink.old) → K.held sink.new ≡ K.held sink.old ++ bytes.now }
    ensures begun { result ≡ false → Rose (K.faults sink.old) (K.faults sink.new) × (IsTrue (K.told sink.old) → Begun (K.held sink.old) (K.held sink.new) bytes.now) }
{
    let mut done = 0;
    while done < bytes.len() {
        match sink.write(&bytes[done..]) {
            WriteEnd::Took(n) => done += n,
            WriteEnd::Failed => return false,
        }
    }
    true
}

impl<'a, K: ByteSink> TextStream<'a, K> {
    ghost use Rattle.journal_texts.specs.StreamsOf.{PutsOn};

    // Writes the piece.
    fn flush(&mut self)
        ensures puts { PutsOn K.ByteSink self.old self.new [] }
        ensures empty { self.new.failed ≡ false → self.new.piece.now.items ≡ [] }
    {
        if !self.failed {
            self.failed = !write_bytes(self.sink, self.piece.as_slice());
            self.piece.clear();
        }
    }

    // Writes the piece, and then the bytes.
    fn write(&mut self, text: &[u8])
        ensures puts { PutsOn K.ByteSink self.old self.new text.now }
    {
        self.flush();
        if !self.failed {
            self.failed = !write_bytes(self.sink, text);
        }
    }

    // Writes the piece, where so many bytes more are too many for it.
    fn make_room(&mut self, more: usize)
        ensures puts { PutsOn K.ByteSink self.old self.new [] }
    {
        if self.piece.len().saturating_add(more) > PIECE {
            self.flush();
        }
    }

    // Adds the bytes to the piece, or writes both where there is no memory.
    fn add(&mut self, text: &[u8])
        ensures puts { PutsOn K.ByteSink self.old self.new text.now }
    {
        self.make_room(text.len());
        if self.piece.extend_from_slice(text).is_err() {
            self.write(text);
        }
    }
}

impl<'a, K: ByteSink> TextSink for TextStream<'a, K> {
    ghost use Rattle.journal_texts.specs.StreamsOf.{PutsOn, puts_nothing, puts_both};

    ghost puts = { λ old new text. PutsOn K.ByteSink old new text };

    fn put(&mut self, text: &[u8]) {
        if self.failed {
            return;
        }
        if text.len() > PIECE {
            self.write(text);
        } else {
            self.add(text);
        }
    }

    ghost nothing = { λ now. puts_nothing K.ByteSink now };

    ghost together = { λ old mid new first second. puts_both K.ByteSink old mid new first second };
}

/// What has a text that can be written piece by piece.
pub trait Streamed {
    /// What it has to be, to be written.
    ghost fits: { Self → Type 0 };

    /// Its text.
    ghost text: { Self → List ℕ };

    /// Writes the text.
    fn put_on<W: TextSink>(&self, out: &mut W)
        requires { fits self.now }
        ensures { W.puts out.old out.new (text self.now) };
}

// Streams the text, and answers whether all of it was written.
fn stream_text<K: ByteSink, T: Streamed>(out: &mut TextStream<'_, K>, what: &T) -> bool
    requires fresh { (out.old.piece.now.items ≡ []) × (out.old.failed ≡ false) }
    requires fits { T.fits what.now }
    ensures same_reference { out.new.sink.ghost_name ≡ out.old.sink.ghost_name }
    ensures same_piece { out.new.piece.ghost_name ≡ out.old.piece.ghost_name }
    ensures streamed { IsStreamed (stream_seen K.ByteSink out.old) (stream_seen K.ByteSink out.new) (T.text what.now) result }
{
    what.put_on(out);
    out.flush();
    !out.failed
}

/// Writes a text in pieces, and answers whether all of it was written. It needs no memory: where there is none for a piece, its
/// parts are written one by one.
pub fn write_streamed<K: ByteSink, T: Streamed>(alloc: Global, sink: &mut K, what: &T) -> bool
    requires fits { T.fits what.now }
    ensures told { K.told sink.new ≡ K.told sink.old }
    ensures stay { K.faults sink.old ≤ K.faults sink.new }
    ensures fault { result ≡ false → Rose (K.faults sink.old) (K.faults sink.new) }
    ensures whole { result ≡ true → IsTrue (K.told sink.old) → K.held sink.new ≡ K.held sink.old ++ T.text what.now }
    ensures begun { IsTrue (K.told sink.old) → Begun (K.held sink.old) (K.held sink.new) (T.text what.now) }
{
    let mut piece = Vec::new(alloc);
    let mut out = TextStream {
        sink,
        piece: &mut piece,
        failed: false,
    };
    stream_text(&mut out, what)
}

// The text of a journal.
#[derive(Clone, Copy)]
struct JournalText<'a> {
    journal: &'a Journal,
}

impl Streamed for JournalText<'_> {
    ghost fits = { λ _. Unit {0} };

    ghost text = { λ t. text_of_journal t.journal.now.steps };

    fn put_on<W: TextSink>(&self, out: &mut W) {
        put_journal(out, self.journal);
    }
}

/// Writes the text of a journal in pieces, and answers whether all of it was written.
pub fn write_journal<K: ByteSink>(alloc: Global, sink: &mut K, journal: &Journal) -> bool
    ensures told { K.told sink.new ≡ K.told sink.old }
    ensures stay { K.faults sink.old ≤ K.faults sink.new }
    ensures fault { result ≡ false → Rose (K.faults sink.old) (K.faults sink.new) }
    ensures whole { result ≡ true → IsTrue (K.told sink.old) → K.held sink.new ≡ K.held sink.old ++ text_of_journal journal.now.steps }
    ensures begun { IsTrue (K.told sink.old) → Begun (K.held sink.old) (K.held sink.new) (text_of_journal journal.now.steps) }
{
    write_streamed(alloc, sink, &JournalText { journal })
}
