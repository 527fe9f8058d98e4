//! The live sink of a run. It is opened by its name behind all else, a watch over it is shown the journal, and it is given back
//! last.

ghost use Rattle.std.specs.Prelude.{◌≡◌, false, Bool, ℕ, List, [], IsTrue, IfOk, IfErr};
ghost use Rattle.pipe_types.specs.{Sound.{IsSound}, declared.topology.Topology.{Topology as TopologySeen}};
ghost use Rattle.pipe_model.specs.{Begins.{BeginsWith}, History.{History}};
ghost use Rattle.pipe_edges.specs.declared.edges.EdgeKind.TheVariants.{Sink};
ghost use Rattle.stage_bodies.specs.Seen.{sink_seen};
ghost use Rattle.edge_names.specs.Named.{BacksSink, GivesSink, Opens};
ghost use Rattle.run_pipe.specs.Watches.{watch_seen};
ghost use Rattle.pipe_run.specs.Live.{IsFedSince, IsLiveOpened, IsLiveUnopened, held_in};

use edge_names::{SeenEdges, SeenSink};
use pipe_edges::{ByteSink, EdgeEnd, Edges};
use pipe_journal::Watch;
use pipe_types::bytes::Text;
use pipe_types::topology::Topology;
use std::alloc::{AllocError, Global};

/// What a live sink is for: how a watch is made over it, which writes to it what there is to tell of the journal.
pub trait Live<K: ByteSink> {
    type Watch: Watch;

    /// What the sink is to get of a journal.
    ghost text: { TopologySeen → History → List ℕ };

    /// A watch that fits the topology, over this sink. Where memory is wanting the sink is given back.
    fn watch(alloc: Global, topology: &Topology, sink: K) -> Result<Self::Watch, (K, AllocError)>
        requires sound { IsSound topology.now }
        ensures fits { IfOk result (λ w. Self.Watch.fits w topology.now) }
        ensures unseen { IfOk result (λ w. Self.Watch.stands w []) }
        ensures unfailed { IfOk result (λ w. Self.Watch.failed w ≡ false) }
        ensures begun { IfOk result (λ w. Self.Watch.begun w ≡ held_in (sink_seen K.told K.held K.faults sink)) }
        ensures faults { IfOk result (λ w. Self.Watch.faults w ≡ K.faults sink) }
        ensures returned { IfErr result (λ e. e.0 ≡ sink) };

    /// Its sink, which was fed a first part of the text of a journal of which the watch has seen a part, and all of it where it has seen all
    /// and has not failed.
    fn into_sink(watch: Self::Watch) -> K
        ensures fed { (topology : TopologySeen) (steps : History) (all : Bool) → Self.Watch.fits watch topology
            → ((earlier : History) × Self.Watch.stands watch earlier × BeginsWith steps earlier)
            → (IsTrue all → (Self.Watch.failed watch ≡ false) × Self.Watch.stands watch steps)
            → IsFedSince (text topology steps) all (Self.Watch.begun watch) (sink_seen K.told K.held K.faults result) }
        ensures faults { K.faults result ≡ Self.Watch.faults watch };
}

/// Why there is no watch over the live sink.
#[derive(Drop)]
pub(crate) enum NotLive<K> {
    /// The call by this name failed.
    Failed(Text),
    /// Memory was wanting before the sink was opened.
    Unopened,
    /// Memory was wanting for a watch over this sink.
    Opened(K),
}

/// Opens the sink of this name.
fn open_sink<E: Edges>(name: &Text, edges: &mut E) -> Result<E::Sink, EdgeEnd>
    ensures opens { Opens Sink name.now (⟦<E as SeenEdges>⟧.seen edges.old) (⟦<E as SeenEdges>⟧.seen edges.new) result }
    ensures given { IfOk result (λ k. GivesSink (⟦<E as SeenEdges>⟧.seen edges.old) name.now (⟦<E::Sink as SeenSink>⟧.seen k)) }
{
    edges.open_sink(name)
}

/// Gives a sink back under its name.
pub(crate) fn back_sink<E: Edges>(
    name: &Text,
    sink: E::Sink,
    edges: &mut E,
) -> Result<(), AllocError>
    ensures { BacksSink name.now (⟦<E::Sink as SeenSink>⟧.seen sink) (⟦<E as SeenEdges>⟧.seen edges.old) (⟦<E as SeenEdges>⟧.seen edges.new) result }
{
    edges.back_sink(name, sink)
}

fn copy_text(alloc: Global, text: &str) -> Result<Text, AllocError>
    ensures { IfOk result (λ copy. copy ≡ text.now) }
{
    Ok(Text::from_string(String::from_str(alloc, text)?))
}

/// Opens the live sink of this name, and makes a watch over it that fits the topology.
pub(crate) fn open_live<E: Edges, L: Live<E::Sink>>(
    alloc: Global,
    name: &Text,
    topology: &Topology,
    edges: &mut E,
) -> Result<L::Watch, NotLive<E::Sink>>
    requires sound { IsSound topology.now }
    ensures fits { IfOk result (λ w. L.Watch.fits w topology.now) }
    ensures unseen { IfOk result (λ w. L.Watch.stands w []) }
    ensures opened { IfOk result (λ w. IsLiveOpened name.now (watch_seen L.Watch.begun L.Watch.failed L.Watch.faults w) (⟦<E as SeenEdges>⟧.seen edges.old) (⟦<E as SeenEdges>⟧.seen edges.new)) }
    ensures unopened { IfErr result (λ e. IsLiveUnopened (sink_seen E.Sink.told E.Sink.held E.Sink.faults) name.now e (⟦<E as SeenEdges>⟧.seen edges.old) (⟦<E as SeenEdges>⟧.seen edges.new)) }
{
    let Ok(copy) = copy_text(alloc, name.as_str()) else {
        return Err(NotLive::Unopened);
    };
    match open_sink(name, edges) {
        Ok(sink) => match L::watch(alloc, topology, sink) {
            Ok(watch) => Ok(watch),
            Err((sink, _)) => Err(NotLive::Opened(sink)),
        },
        Err(EdgeEnd::Failed) => Err(NotLive::Failed(copy)),
        Err(EdgeEnd::OutOfMemory) => Err(NotLive::Unopened),
    }
}
