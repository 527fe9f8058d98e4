//! One fetch of lines.

ghost use Rattle.std.specs.Prelude.{◌≡◌, ◌<◌, Some, IfOk, IfSome};
ghost use Rattle.pipe_edges.specs.{LineSource.{line_source, waiting, line_end_of}, Needed.{ReadsAsNeeded}, Fetch.{records_in, text_of}};
ghost use Rattle.source_lines.specs.{Read.{ReadsOn, IsFetchAnswer}, Seen.{line_seen}};

use pipe_edges::{ByteSource, Fetched, LineSource};
use std::alloc::AllocError;

/// Hands out the next lines of the source, the first that it holds, 1 to `max` of them, or why there are none. For want
/// of memory no line is gone.
pub fn read_lines<B: ByteSource>(
    source: &mut LineSource<B>,
    max: u32,
) -> Result<Fetched, AllocError>
    requires { 0 < max }
    // The records of this fetch follow those of the fetches before.
    ensures read { ReadsOn (records_in result) (line_seen B.ByteSource source.old) (line_seen B.ByteSource source.new) }
    ensures end_stays { IfSome (line_end_of source.old) (λ end. line_end_of source.new ≡ Some end) }
    // It reads no more than the records need.
    ensures needed { ReadsAsNeeded (waiting source.old) (waiting source.new)
        (text_of (line_end_of source.new) (records_in result)) }
    // Fewer than `max` only where no whole line is held any more.
    ensures answer { IfOk result (IsFetchAnswer max (B.waits (line_source source.old))
        (B.waits (line_source source.new)) (waiting source.new) (line_end_of source.new)) }
{
    source.fetch(max)
}
