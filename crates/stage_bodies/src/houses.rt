//! How a body is filled and emptied.

ghost use Rattle.std.specs.Prelude.{◌≡◌, None, Some, option_map};
ghost use Rattle.stage_bodies.specs.Seen.{sources_seen, sources_out, sink_seen, feed_seen, with_source, with_sink};

use crate::feed::{Feed, FeedSources};
use crate::works::Works;
use pipe_edges::{ByteSink, ByteSource};

/// What houses a source and a sink, beside a callback.
pub trait Houses<S: ByteSource, K: ByteSink>: Works {
    /// A body that holds nothing.
    fn empty() -> Self
        ensures { Self.look result ≡ record { source = None; sink = None; callback = None } };

    fn put_source(&mut self, source: Feed<S>)
        ensures { Self.look self.new ≡ with_source (feed_seen S.ByteSource source) (Self.look self.old) };

    fn put_sink(&mut self, sink: K)
        ensures { Self.look self.new ≡ with_sink (sink_seen K.told K.held K.faults sink) (Self.look self.old) };

    /// Takes the source out, or the sources of a merge. Bytes that were read and not handed out are let go.
    fn take_source(&mut self) -> Option<FeedSources<S>>
        ensures out { option_map (sources_seen S.ByteSource) result ≡ option_map sources_out (Self.look self.old).source }
        ensures rest { Self.look self.new ≡ record (Self.look self.old) { source = None } };

    fn take_sink(&mut self) -> Option<K>
        ensures out { option_map (sink_seen K.told K.held K.faults) result ≡ (Self.look self.old).sink }
        ensures rest { Self.look self.new ≡ record (Self.look self.old) { sink = None } };
}
