//! Lines read from a source of bytes.

ghost use Rattle.std.specs.Prelude.{◌≡◌, ◌<◌, ◌++◌, ℕ, [], None, Some, All, IsTrue, IsNone, IfOk, IfErr, IfSome};
ghost use Rattle.pipe_types.specs.Lines.{lines};
ghost use Rattle.pipe_edges.specs.{declared.reading.LineEnd.TheVariants.{End, TooLong}, Texts.{IsLine, BeginsTooLong}, Handed.{Handed}, Needed.{ReadsAsNeeded}};
ghost use Rattle.pipe_edges.specs.{Pacing.{FetchIsPaced, IsToldAt}, Fetch.{answer_of, records_in, text_of, FetchHasCause, Remembers}};

use crate::ByteSource;
use crate::held::Held;
use crate::reading::{Fetched, LineEnd, read_on};
use std::alloc::{AllocError, Global};

/// Hands out the lines of a source.
#[derive(Drop)]
pub struct LineSource<B> {
    alloc: Global,
    source: B,
    held: Held,
    end: Option<LineEnd>,
    ghost at_end: { end ≡ Some End → held ≡ [] },
    ghost at_too_long: { end ≡ Some TooLong → BeginsTooLong held },
}

impl<B: ByteSource> LineSource<B> {
    ghost use Rattle.pipe_edges.specs.LineSource.{line_source, waiting, line_end_of};

    /// Over this source. For want of memory the source comes back as it was.
    pub fn new(alloc: Global, source: B) -> Result<LineSource<B>, (B, AllocError)>
        ensures ok { IfOk result (λ s. (line_source s ≡ source) × (waiting s ≡ []) × (line_end_of s ≡ None)) }
        ensures err { IfErr result (λ e. e.0 ≡ source) }
    {
        match Held::new(alloc) {
            Ok(held) => Ok(LineSource {
                alloc,
                source,
                held,
                end: None,
            }),
            Err(e) => Err((source, e)),
        }
    }

    /// The source, with all that it counted. Bytes that were read and not handed out are let go.
    pub fn into_inner(self) -> B
        ensures { result ≡ line_source self }
    {
        let LineSource {
            alloc,
            source,
            held,
            end,
        } = self;
        let _ = (alloc, end);
        drop(held);
        source
    }

    /// Hands out the first whole lines that are held, at most `max`. Where none is held it reads, each time into a
    /// piece of 8,192 bytes, until one is held or the source ends, fails, has nothing ready or gives too long a
    /// line. The last line of a source needs no LF. An end is answered again by every later call. For want of
    /// memory the bytes that were read are kept, and no line is gone.
    pub fn fetch(&mut self, max: u32) -> Result<Fetched, AllocError>
        requires { 0 < max }
        // No byte is lost or gained between the source, what is held and the records.
        ensures handed { Handed B.ByteSource (line_source self.old) (line_source self.new)
            (waiting self.old) (waiting self.new) (text_of (line_end_of self.new) (records_in result)) }
        // The records are the first of the lines that were to come.
        ensures in_order { IsTrue (B.told (line_source self.old))
            → lines (waiting self.old ++ B.left (line_source self.old))
            ≡ records_in result ++ lines (waiting self.new ++ B.left (line_source self.new)) }
        ensures each_is_a_line { All IsLine (records_in result) }

        ensures cause { IfOk result (λ f. IsNone (line_end_of self.old)
            → FetchHasCause max (B.faults (line_source self.old)) (B.faults (line_source self.new))
            (B.waits (line_source self.old)) (B.waits (line_source self.new)) (waiting self.new) f) }
        ensures nothing_left { IsNone (line_end_of self.old) → line_end_of self.new ≡ Some LineEnd.End
            → (waiting self.new ≡ []) × (IsTrue (B.told (line_source self.old)) → B.left (line_source self.new) ≡ []) }
        // With a pace the records are just those that the source gave, as long as no call has found no memory.
        ensures paced { FetchIsPaced B.ByteSource (line_source self.old) (line_source self.new)
            (waiting self.old) (waiting self.new) result }
        // It reads only where no whole line is held, nor more bytes than a line may have.
        ensures unread { ¬ IsLine (waiting self.old) → line_source self.new ≡ line_source self.old }

        // It reads only behind a part of a line: before the last 8,192 bytes at most that it read, no LF was held.
        ensures needed { ReadsAsNeeded (waiting self.old) (waiting self.new)
            (text_of (line_end_of self.new) (records_in result)) }

        ensures remembers { Remembers (line_end_of self.new) result }
        ensures again { IfSome (line_end_of self.old) (λ e. (result ≡ Ok (answer_of e)) × (self.new ≡ self.old)) }
    {
        if let Some(end) = self.end {
            return Ok(end.answer());
        }
        let stop = read_on(self.alloc, &mut self.source, &mut self.held, max)?;
        self.end = stop.end();
        Ok(stop.into_fetched())
    }

    /// Tells the source the moment in milliseconds.
    pub fn at(&mut self, now: u64)
        ensures told { IsToldAt B.ByteSource now (line_source self.old) (line_source self.new) }
        ensures waiting { waiting self.new ≡ waiting self.old }
        ensures end { line_end_of self.new ≡ line_end_of self.old }
    {
        self.source.at(now);
    }
}
