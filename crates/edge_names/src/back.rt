//! Giving back by name, in stage order.

ghost use Rattle.std.specs.Prelude.{◌≡◌, ◌≢◌, ◌++◌, ℕ, [], Option, Some, length, option_map, OnOk, OnErr};
ghost use Rattle.pipe_types.specs.{Sound.{IsSound}, declared.topology.StageSpec.{StageSpec}};
ghost use Rattle.stage_bodies.specs.Seen.{body_at, line_seen, sources_out, sources_seen};
ghost use Rattle.edge_names.specs.{Controls.{IsBackFirst, IsGivenInPart, named_control}, Supplies.{at_paces, given_back, supplied, written}};
ghost use Rattle.edge_names.specs.Returned.{AreCalm, GivesBack, GivesOff, IsBackInPart, IsBackUpTo, IsCalm, IsCalmOut, KeepsCallbacks, feed_in, named_source, named_sink, source_in, sink_in, sources_of, sinks_of};
ghost use Rattle.pipe_edges.specs.Paces.{Pace};

use crate::control::back_control;
use crate::gates::take_off;
use crate::merging::back_streams;
use crate::seen::{SeenEdges, SeenSink, back_sink};
use crate::supply::Supply;
use pipe_edges::{ByteSink, ByteSource, Edges, LineSource};
use pipe_types::numbers::Post;
use pipe_types::topology::{Role, StageSpec, Topology};
use rate_gate::GatedSource;
use stage_bodies::{FeedSources, Houses, place_of, put_back, take_out};
use std::alloc::AllocError;

/// Takes the source out of the body at this place, or the sources of a merge.
fn sources_out_of<S: ByteSource + Drop, K: ByteSink, B: Houses<S, K>>(
    bodies: &mut Vec<Option<B>>,
    at: usize,
) -> Option<FeedSources<S>>
    ensures out { option_map (sources_seen S.ByteSource) result ≡ option_map sources_out (feed_in (body_at B.look bodies.old.items at)) }
    ensures others { (s : ℕ) → at ≢ s → body_at B.look bodies.new.items s ≡ body_at B.look bodies.old.items s }
    ensures callbacks { KeepsCallbacks (body_at B.look bodies.old.items) (body_at B.look bodies.new.items) }
    ensures len { length bodies.new.items ≡ length bodies.old.items }
{
    let body = take_out(bodies, at)?;
    let mut body = body;
    let sources = body.take_source();
    put_back(bodies, at, body);
    sources
}

/// Takes the sink out of the body at this place.
fn sink_out<S: ByteSource, K: ByteSink, B: Houses<S, K>>(
    bodies: &mut Vec<Option<B>>,
    at: usize,
) -> Option<K>
    ensures out { option_map (⟦<K as SeenSink>⟧.seen) result ≡ sink_in (body_at B.look bodies.old.items at) }
    ensures others { (s : ℕ) → at ≢ s → body_at B.look bodies.new.items s ≡ body_at B.look bodies.old.items s }
    ensures callbacks { KeepsCallbacks (body_at B.look bodies.old.items) (body_at B.look bodies.new.items) }
    ensures len { length bodies.new.items ≡ length bodies.old.items }
{
    let body = take_out(bodies, at)?;
    let mut body = body;
    let sink = body.take_sink();
    put_back(bodies, at, body);
    sink
}

/// Gives the sink that the stage names back, if it stands in the body at this place.
fn back_sink_of<E: Edges, P: ByteSource, B: Houses<P, E::Sink>>(
    spec: &StageSpec,
    at: usize,
    bodies: &mut Vec<Option<B>>,
    edges: &mut E,
) -> Result<(), AllocError>
    ensures back { OnOk result (GivesBack [] (named_sink (written spec.now.edge) (body_at B.look bodies.old.items at))
        (⟦<E as SeenEdges>⟧.seen edges.old) (⟦<E as SeenEdges>⟧.seen edges.new)) }
    ensures nothing { OnErr result (GivesBack [] [] (⟦<E as SeenEdges>⟧.seen edges.old) (⟦<E as SeenEdges>⟧.seen edges.new)) }
    ensures others { (s : ℕ) → at ≢ s → body_at B.look bodies.new.items s ≡ body_at B.look bodies.old.items s }
    ensures callbacks { KeepsCallbacks (body_at B.look bodies.old.items) (body_at B.look bodies.new.items) }
    ensures len { length bodies.new.items ≡ length bodies.old.items }
{
    let Some(name) = &spec.edge else {
        return Ok(());
    };
    match sink_out(bodies, at) {
        Some(sink) => back_sink(name, sink, edges),
        None => Ok(()),
    }
}

/// Gives back the sources of a producer, whatever its pace was, without their gates.
fn back_sources<E: Edges, S: Supply<E>>(
    supply: &S,
    spec: &StageSpec,
    sources: FeedSources<GatedSource<S::Source>>,
    edges: &mut E,
) -> Result<(), AllocError>
    ensures back { OnOk result (GivesOff (given_back (S.feeds supply.now spec.now) (Some (sources_seen ⟦<GatedSource<S::Source> as ByteSource>⟧ sources))) []
        (⟦<E as SeenEdges>⟧.seen edges.old) (⟦<E as SeenEdges>⟧.seen edges.new)) }
    ensures in_part { OnErr result (IsBackUpTo (given_back (S.feeds supply.now spec.now) (Some (sources_seen ⟦<GatedSource<S::Source> as ByteSource>⟧ sources)))
        (⟦<E as SeenEdges>⟧.seen edges.old) (⟦<E as SeenEdges>⟧.seen edges.new)) }
    ensures calm { OnOk result (IsCalmOut (S.feeds supply.now spec.now) (sources_seen ⟦<GatedSource<S::Source> as ByteSource>⟧ sources)) }
{
    match supply.merged(spec) {
        None => match sources {
            FeedSources::One(gated) => supply.take_back(spec, 0, take_off(gated), edges),
            FeedSources::Many(_) => Ok(()),
        },
        Some(_) => match sources {
            FeedSources::Many(list) => back_streams(supply, spec, list.into_vec(), edges),
            FeedSources::One(_) => Ok(()),
        },
    }
}

/// Gives back what a stage opened, if it stands in the body at this place, whatever its pace was; sources without their gates.
fn back_stage<E: Edges, S: Supply<E>, B: Houses<GatedSource<S::Source>, E::Sink>>(
    supply: &S,
    spec: &StageSpec,
    at: usize,
    bodies: &mut Vec<Option<B>>,
    edges: &mut E,
) -> Result<(), AllocError>
    ensures back { (paces : StageSpec → Option Pace) → OnOk result (GivesOff (named_source (supplied (record { origin = S.feeds supply.now; pace = paces }) spec.now) (body_at B.look bodies.old.items at)) (named_sink (supplied (record { origin = S.feeds supply.now; pace = paces }) spec.now) (body_at B.look bodies.old.items at))
        (⟦<E as SeenEdges>⟧.seen edges.old) (⟦<E as SeenEdges>⟧.seen edges.new)) }
    ensures in_part { (paces : StageSpec → Option Pace) → OnErr result (IsBackUpTo (named_source (supplied (record { origin = S.feeds supply.now; pace = paces }) spec.now) (body_at B.look bodies.old.items at))
        (⟦<E as SeenEdges>⟧.seen edges.old) (⟦<E as SeenEdges>⟧.seen edges.new)) }
    ensures calm { (paces : StageSpec → Option Pace) → OnOk result (IsCalm (supplied (record { origin = S.feeds supply.now; pace = paces }) spec.now) (source_in (body_at B.look bodies.old.items at))) }
    ensures others { (s : ℕ) → at ≢ s → body_at B.look bodies.new.items s ≡ body_at B.look bodies.old.items s }
    ensures callbacks { KeepsCallbacks (body_at B.look bodies.old.items) (body_at B.look bodies.new.items) }
    ensures len { length bodies.new.items ≡ length bodies.old.items }
{
    match spec.role {
        Role::Producer => match sources_out_of(bodies, at) {
            Some(sources) => back_sources(supply, spec, sources, edges),
            None => Ok(()),
        },
        Role::BatchProcessor => back_sink_of(spec, at, bodies, edges),
        _ => Ok(()),
    }
}

/// Gives the sources and sinks that stand in the bodies back under the names of their stages, in stage order. Want of memory
/// ends it: the source or sink at hand is then let go, and those of later stages stay in their bodies.
fn give_back_stages<E: Edges, S: Supply<E>, B: Houses<GatedSource<S::Source>, E::Sink>>(
    supply: &S,
    topology: &Topology,
    bodies: &mut Vec<Option<B>>,
    edges: &mut E,
) -> Result<(), AllocError>
    requires sound { IsSound topology.now }
    ensures back { OnOk result (GivesOff (sources_of (at_paces topology.now (S.feeds supply.now)) topology.now.stages (body_at B.look bodies.old.items)) (sinks_of (at_paces topology.now (S.feeds supply.now)) topology.now.stages (body_at B.look bodies.old.items))
        (⟦<E as SeenEdges>⟧.seen edges.old) (⟦<E as SeenEdges>⟧.seen edges.new)) }
    ensures in_part { OnErr result (IsBackInPart (at_paces topology.now (S.feeds supply.now)) topology.now (body_at B.look bodies.old.items) (⟦<E as SeenEdges>⟧.seen edges.old) (⟦<E as SeenEdges>⟧.seen edges.new)) }
    ensures calm { OnOk result (AreCalm (at_paces topology.now (S.feeds supply.now)) topology.now.stages (body_at B.look bodies.old.items)) }
    ensures callbacks { KeepsCallbacks (body_at B.look bodies.old.items) (body_at B.look bodies.new.items) }
    ensures len { length bodies.new.items ≡ length bodies.old.items }
{
    for spec in topology.stages.as_slice() {
        let at = place_of(Post {
            stage: spec.no,
            slot: 0,
        });
        match back_stage(supply, spec, at, bodies, edges) {
            Ok(()) => {}
            Err(error) => return Err(error),
        }
    }
    Ok(())
}

/// Gives the control source back under its name, and then the sources and sinks that stand in the bodies. Want of memory ends
/// it, and nothing more is given back.
pub fn give_back<E: Edges, S: Supply<E>, B: Houses<GatedSource<S::Source>, E::Sink>>(
    supply: &S,
    topology: &Topology,
    control: Option<LineSource<E::Source>>,
    bodies: &mut Vec<Option<B>>,
    edges: &mut E,
) -> Result<(), AllocError>
    requires sound { IsSound topology.now }
    ensures back { OnOk result (GivesOff
        (named_control topology.now.control (option_map (line_seen E.Source.ByteSource) control)
        ++ sources_of (at_paces topology.now (S.feeds supply.now)) topology.now.stages (body_at B.look bodies.old.items))
        (sinks_of (at_paces topology.now (S.feeds supply.now)) topology.now.stages (body_at B.look bodies.old.items))
        (⟦<E as SeenEdges>⟧.seen edges.old) (⟦<E as SeenEdges>⟧.seen edges.new)) }
    ensures first { IsBackFirst topology.now.control (option_map (line_seen E.Source.ByteSource) control) (⟦<E as SeenEdges>⟧.seen edges.old) (⟦<E as SeenEdges>⟧.seen edges.new) }
    ensures in_part { OnErr result (IsGivenInPart (at_paces topology.now (S.feeds supply.now)) topology.now (option_map (line_seen E.Source.ByteSource) control)
        (body_at B.look bodies.old.items) (⟦<E as SeenEdges>⟧.seen edges.old) (⟦<E as SeenEdges>⟧.seen edges.new)) }
    ensures calm { OnOk result (AreCalm (at_paces topology.now (S.feeds supply.now)) topology.now.stages (body_at B.look bodies.old.items)) }
    ensures callbacks { KeepsCallbacks (body_at B.look bodies.old.items) (body_at B.look bodies.new.items) }
    ensures len { length bodies.new.items ≡ length bodies.old.items }
{
    match back_control(&topology.control, control, edges) {
        Ok(()) => give_back_stages(supply, topology, bodies, edges),
        Err(error) => Err(error),
    }
}
