//! The acknowledgements of a run, sent to a sink while it runs.

ghost use Rattle.journal_texts.specs.Acks.{ack_text};

use ack_feed::AckFeed;
use journal_reading::copy_topology;
use pipe_edges::ByteSink;
use pipe_run::Live;
use pipe_types::topology::Topology;
use std::alloc::{AllocError, Global};

/// How many texts a feed holds, each of the lines of one step.
const ROOM: u16 = 16;

/// What is live of a run: the line of each acknowledgement goes to a sink as soon as it is there.
pub(crate) struct SinkFeed;

impl<K: ByteSink + Send> Live<K> for SinkFeed {
    type Watch = AckFeed<K>;

    ghost text = { λ topology steps. ack_text topology steps };

    fn watch(alloc: Global, topology: &Topology, sink: K) -> Result<AckFeed<K>, (K, AllocError)> {
        match copy_topology(alloc, topology) {
            Ok(copy) => match AckFeed::new(alloc, copy, sink, ROOM) {
                Ok(feed) => Ok(feed),
                Err((_, sink, failed)) => Err((sink, failed)),
            },
            Err(failed) => Err((sink, failed)),
        }
    }

    fn into_sink(watch: AckFeed<K>) -> K {
        watch.into_sink()
    }
}
