//! One source of a merge.

ghost use Rattle.std.specs.Prelude.{◌≡◌, true, false, Some, IfOk, IfErr};
ghost use Rattle.pipe_edges.specs.{LineSource.{line_source, line_end_of}, declared.reading.LineEnd.TheVariants.{End}};
ghost use Rattle.line_merge.specs.Items.{line_in};

use crate::found::Tried;
use pipe_edges::{ByteSource, Fetched, LineSource};
use std::alloc::{AllocError, Global};

// A source with its lines, and whether it has not answered its end yet.
#[derive(Drop)]
pub struct Stream<B> {
    lines: LineSource<B>,
    is_open: bool,
    ghost closed_at_end: { is_open ≡ false → line_end_of lines ≡ Some End },
}

impl<B: ByteSource> Stream<B> {
    ghost use Rattle.line_merge.specs.Streams.{lines_of, is_open_in};
    ghost use Rattle.line_merge.specs.Opening.{IsNew, source_in};
    ghost use Rattle.line_merge.specs.Tries.{Gives, TakenHasCause};

    pub fn new(alloc: Global, source: B) -> Result<Stream<B>, (B, AllocError)>
        ensures source { IfOk result (λ s. source_in s ≡ source) }
        ensures open { IfOk result IsNew }
        ensures err { IfErr result (λ e. e.0 ≡ source) }
    {
        match LineSource::new(alloc, source) {
            Ok(lines) => Ok(Stream {
                lines,
                is_open: true,
            }),
            Err(back) => Err(back),
        }
    }

    pub fn into_inner(self) -> B
        ensures { result ≡ source_in self }
    {
        let Stream { lines, is_open } = self;
        let _ = is_open;
        lines.into_inner()
    }

    pub fn is_open(&self) -> bool
        ensures { result ≡ is_open_in self.now }
    {
        self.is_open
    }

    // Reads the next line of an open source. Its end closes it.
    fn take_line(&mut self) -> Result<Tried, AllocError>
        requires { is_open_in self.old ≡ true }
        ensures gives { Gives B.ByteSource (line_in result) self.old self.new }
        ensures cause { IfOk result (TakenHasCause B.ByteSource self.old self.new) }
    {
        match self.lines.fetch(1) {
            Ok(fetched) => {
                let tried = Tried::new(fetched);
                self.is_open = tried.leaves_open();
                Ok(tried)
            }
            Err(e) => Err(e),
        }
    }

    // Reads the next line, if the source is open. A closed one is not read.
    pub fn try_line(&mut self) -> Result<Tried, AllocError>
        ensures gives { Gives B.ByteSource (line_in result) self.old self.new }
        ensures cause { IfOk result (TakenHasCause B.ByteSource self.old self.new) }
    {
        if self.is_open {
            self.take_line()
        } else {
            Ok(Tried::new(Fetched::End))
        }
    }
}
