//! Sources, sinks and edges as plain data.

ghost use Rattle.std.specs.Prelude.{IfOk};
ghost use Rattle.pipe_edges.specs.declared.edges.EdgeKind.TheVariants.{Source, Sink};
ghost use Rattle.stage_bodies.specs.Seen.{SourceSeen, SinkSeen, source_seen, sink_seen};
ghost use Rattle.edge_names.specs.{Seen.{EdgesSeen, edges_seen}, Named.{GivesSource, GivesSink, Opens, BacksSource, BacksSink}};

use pipe_edges::{ByteSink, ByteSource, EdgeEnd, Edges};
use pipe_types::bytes::Text;
use std::alloc::AllocError;

/// A source as contracts see it.
pub trait SeenSource: ByteSource {
    ghost seen: { Self → SourceSeen };
}

impl<S: ByteSource> SeenSource for S {
    ghost seen = { source_seen S.ByteSource };
}

/// A sink as contracts see it.
pub trait SeenSink: ByteSink {
    ghost seen: { Self → SinkSeen };
}

impl<K: ByteSink> SeenSink for K {
    ghost seen = { sink_seen K.told K.held K.faults };
}

/// What a run opens by name, as contracts see it.
pub trait SeenEdges: Edges {
    ghost seen: { Self → EdgesSeen };
}

impl<E: Edges> SeenEdges for E {
    ghost seen = { edges_seen E.told E.named E.asked E.faults E.sources_back E.sinks_back
        (source_seen E.Source.ByteSource) (sink_seen E.Sink.told E.Sink.held E.Sink.faults) };
}

/// Opens the control source of this name.
pub(crate) fn open_control_source<E: Edges>(
    name: &Text,
    edges: &mut E,
) -> Result<E::Source, EdgeEnd>
    ensures opens { Opens Source name.now (⟦<E as SeenEdges>⟧.seen edges.old) (⟦<E as SeenEdges>⟧.seen edges.new) result }
    ensures given { IfOk result (λ s. GivesSource (⟦<E as SeenEdges>⟧.seen edges.old) name.now (⟦<E::Source as SeenSource>⟧.seen s)) }
{
    edges.open_control(name)
}

/// Opens the sink of this name.
pub(crate) fn open_sink<E: Edges>(name: &Text, edges: &mut E) -> Result<E::Sink, EdgeEnd>
    ensures opens { Opens Sink name.now (⟦<E as SeenEdges>⟧.seen edges.old) (⟦<E as SeenEdges>⟧.seen edges.new) result }
    ensures given { IfOk result (λ k. GivesSink (⟦<E as SeenEdges>⟧.seen edges.old) name.now (⟦<E::Sink as SeenSink>⟧.seen k)) }
{
    edges.open_sink(name)
}

/// Gives a source back under its name.
pub(crate) fn back_source<E: Edges>(
    name: &Text,
    source: E::Source,
    edges: &mut E,
) -> Result<(), AllocError>
    ensures { BacksSource name.now (⟦<E::Source as SeenSource>⟧.seen source) (⟦<E as SeenEdges>⟧.seen edges.old) (⟦<E as SeenEdges>⟧.seen edges.new) result }
{
    edges.back_source(name, source)
}

/// Gives a sink back under its name.
pub(crate) fn back_sink<E: Edges>(
    name: &Text,
    sink: E::Sink,
    edges: &mut E,
) -> Result<(), AllocError>
    ensures { BacksSink name.now (⟦<E::Sink as SeenSink>⟧.seen sink) (⟦<E as SeenEdges>⟧.seen edges.old) (⟦<E as SeenEdges>⟧.seen edges.new) result }
{
    edges.back_sink(name, sink)
}
