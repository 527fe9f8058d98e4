//! Opening by name, in stage order.

ghost use Rattle.std.specs.Prelude.{◌≡◌, ◌≤◌, ◌==◌, ℕ, Option, None, Some, if◌then◌else◌, length, option_map, IfOk, IfErr, IfSome, OnOk, OnErr, IsSome};
ghost use Rattle.pipe_types.specs.{Sound.{IsSound}, Sound.{producers as producers_of}};
ghost use Rattle.stage_bodies.specs.Seen.{feed_seen, line_seen, body_at, with_source, with_sink};
ghost use Rattle.edge_names.specs.Controls.{IsCutShort, IsUndone, control_call, run_calls};
ghost use Rattle.edge_names.specs.{Opened.{Asks, AreHome, AreOpened, HasSource, IfCutOff, IfFailed, IsCutOff, IsFailed, OpensOne, edge_calls}, Gates.{IsShared}};
ghost use Rattle.edge_names.specs.{Supplies.{Written, at_paces, fed, merge_count, supplied}, Returned.{KeepsCallbacks}};
ghost use Rattle.rate_gate.specs.Gate.{pace_of, moment_of, given_of};
ghost use Rattle.pipe_edges.specs.Paces.{Pace};

use crate::back::give_back;
use crate::control::open_control;
use crate::gates::{count_producers, gate_at, gated_lines};
use crate::merging::{merge_of, open_streams};
use crate::names::copy_text;
use crate::seen::{SeenEdges, SeenSink, open_sink};
use crate::supply::Supply;
use pipe_edges::{ByteSink, ByteSource, EdgeEnd, Edges, LineSource};
use pipe_types::bytes::Text;
use pipe_types::numbers::Post;
use pipe_types::topology::{Role, StageSpec, Topology};
use rate_gate::{Gate, GatedSource};
use stage_bodies::{Feed, Houses, place_of, put_back, take_out};
use std::alloc::Global;

/// Why not everything is open.
#[derive(Drop)]
pub enum Unopened {
    /// The call by this name failed.
    Failed(Text),
    OutOfMemory,
}

/// Gives a body its source, or its merge.
fn set_source<S: ByteSource + Drop, K: ByteSink, B: Houses<S, K>>(
    bodies: &mut Vec<Option<B>>,
    at: usize,
    feed: Feed<S>,
)
    ensures len { length bodies.new.items ≡ length bodies.old.items }
    ensures others { (s : ℕ) → body_at B.look bodies.new.items s
        ≡ (if at == s then option_map (with_source (feed_seen S.ByteSource feed)) (body_at B.look bodies.old.items s) else body_at B.look bodies.old.items s) }
{
    if let Some(body) = take_out(bodies, at) {
        let mut body = body;
        body.put_source(feed);
        put_back(bodies, at, body);
    }
}

/// Gives a body its sink.
fn set_sink<S: ByteSource, K: ByteSink + Drop, B: Houses<S, K>>(
    bodies: &mut Vec<Option<B>>,
    at: usize,
    sink: K,
)
    ensures len { length bodies.new.items ≡ length bodies.old.items }
    ensures others { (s : ℕ) → body_at B.look bodies.new.items s
        ≡ (if at == s then option_map (with_sink (⟦<K as SeenSink>⟧.seen sink)) (body_at B.look bodies.old.items s) else body_at B.look bodies.old.items s) }
{
    if let Some(body) = take_out(bodies, at) {
        let mut body = body;
        body.put_sink(sink);
        put_back(bodies, at, body);
    }
}

/// Supplies a producer with its one source, in this gate, into the body at this place. For want of memory the source goes back, as
/// far as there is memory for that.
fn supply_source_into<E: Edges, S: Supply<E>, B: Houses<GatedSource<S::Source>, E::Sink>>(
    alloc: Global,
    supply: &S,
    spec: &StageSpec,
    gate: Option<Gate>,
    at: usize,
    bodies: &mut Vec<Option<B>>,
    edges: &mut E,
) -> Result<(), Unopened>
    requires single { merge_count (S.feeds supply.now spec.now) ≡ None }
    requires begun { IfSome gate (λ g. (moment_of g ≡ 0) × (given_of g ≡ 0)) }
    requires home { IsSome (S.feeds supply.now spec.now) → IsSome (body_at B.look bodies.old.items at) }
    ensures opens { OpensOne (fed (option_map pace_of gate) (S.feeds supply.now spec.now)) at result (⟦<E as SeenEdges>⟧.seen edges.old) (⟦<E as SeenEdges>⟧.seen edges.new) (body_at B.look bodies.old.items) (body_at B.look bodies.new.items) }
    ensures same { OnErr result (bodies.new.items ≡ bodies.old.items) }
    ensures len { length bodies.new.items ≡ length bodies.old.items }
{
    match supply.supply(alloc, spec, 0, edges) {
        Ok(Some(source)) => match gated_lines(alloc, source, gate) {
            Ok(lines) => {
                set_source(bodies, at, Feed::Lines(lines));
                Ok(())
            }
            Err((source, _)) => {
                let _ = supply.take_back(spec, 0, source, edges);
                Err(Unopened::OutOfMemory)
            }
        },
        Ok(None) => Ok(()),
        Err(unopened) => Err(unopened),
    }
}

/// Supplies a producer with the merge of so many sources, into the body at this place. What was opened before one of them that
/// cannot be opened goes back.
fn supply_merge_into<E: Edges, S: Supply<E>, B: Houses<GatedSource<S::Source>, E::Sink>>(
    alloc: Global,
    supply: &S,
    spec: &StageSpec,
    count: usize,
    at: usize,
    bodies: &mut Vec<Option<B>>,
    edges: &mut E,
) -> Result<(), Unopened>
    requires merged { merge_count (S.feeds supply.now spec.now) ≡ Some count }
    requires some { 2 ≤ count }
    requires few { count ≤ 64 }
    requires home { IsSome (body_at B.look bodies.old.items at) }
    ensures opens { (pace : Option Pace) → OpensOne (fed pace (S.feeds supply.now spec.now)) at result (⟦<E as SeenEdges>⟧.seen edges.old) (⟦<E as SeenEdges>⟧.seen edges.new) (body_at B.look bodies.old.items) (body_at B.look bodies.new.items) }
    ensures same { OnErr result (bodies.new.items ≡ bodies.old.items) }
    ensures len { length bodies.new.items ≡ length bodies.old.items }
{
    match open_streams(alloc, supply, spec, count, edges) {
        Ok(sources) => match merge_of(alloc, supply, spec, sources, edges) {
            Ok(merge) => {
                set_source(bodies, at, Feed::Merge(merge));
                Ok(())
            }
            Err(_) => Err(Unopened::OutOfMemory),
        },
        Err(unopened) => Err(unopened),
    }
}

/// Supplies a producer with its source, or its merge, into the body at this place. A merge stands in no gate.
fn supply_into<E: Edges, S: Supply<E>, B: Houses<GatedSource<S::Source>, E::Sink>>(
    alloc: Global,
    supply: &S,
    spec: &StageSpec,
    gate: Option<Gate>,
    at: usize,
    bodies: &mut Vec<Option<B>>,
    edges: &mut E,
) -> Result<(), Unopened>
    requires begun { IfSome gate (λ g. (moment_of g ≡ 0) × (given_of g ≡ 0)) }
    requires home { IsSome (S.feeds supply.now spec.now) → IsSome (body_at B.look bodies.old.items at) }
    ensures opens { OpensOne (fed (option_map pace_of gate) (S.feeds supply.now spec.now)) at result (⟦<E as SeenEdges>⟧.seen edges.old) (⟦<E as SeenEdges>⟧.seen edges.new) (body_at B.look bodies.old.items) (body_at B.look bodies.new.items) }
    ensures same { OnErr result (bodies.new.items ≡ bodies.old.items) }
    ensures len { length bodies.new.items ≡ length bodies.old.items }
{
    match supply.merged(spec) {
        Some(count) => supply_merge_into(alloc, supply, spec, count, at, bodies, edges),
        None => supply_source_into(alloc, supply, spec, gate, at, bodies, edges),
    }
}

/// Opens the sink of this name into the body at this place.
fn open_sink_into<E: Edges, P: ByteSource, B: Houses<P, E::Sink>>(
    alloc: Global,
    name: &Text,
    at: usize,
    bodies: &mut Vec<Option<B>>,
    edges: &mut E,
) -> Result<(), Unopened>
    requires home { IsSome (body_at B.look bodies.old.items at) }
    ensures opens { OpensOne (Some (Written name.now)) at result (⟦<E as SeenEdges>⟧.seen edges.old) (⟦<E as SeenEdges>⟧.seen edges.new) (body_at B.look bodies.old.items) (body_at B.look bodies.new.items) }
    ensures same { OnErr result (bodies.new.items ≡ bodies.old.items) }
    ensures len { length bodies.new.items ≡ length bodies.old.items }
{
    let Ok(sink_name) = copy_text(alloc, name.as_str()) else {
        return Err(Unopened::OutOfMemory);
    };
    match open_sink(name, edges) {
        Ok(sink) => {
            set_sink(bodies, at, sink);
            Ok(())
        }
        Err(EdgeEnd::Failed) => Err(Unopened::Failed(sink_name)),
        Err(EdgeEnd::OutOfMemory) => Err(Unopened::OutOfMemory),
    }
}

/// Opens what a stage has, into the body at this place: a source in its gate, where the topology, which has so many producers, has a
/// rate.
fn open_stage<E: Edges, S: Supply<E>, B: Houses<GatedSource<S::Source>, E::Sink>>(
    alloc: Global,
    supply: &S,
    topology: &Topology,
    producers: u32,
    spec: &StageSpec,
    at: usize,
    bodies: &mut Vec<Option<B>>,
    edges: &mut E,
) -> Result<(), Unopened>
    requires counted { producers ≡ length (producers_of topology.now.stages) }
    requires some { 1 ≤ producers }
    requires shared { IfSome topology.now.rate (IsShared producers) }
    requires home { IsSome (supplied (at_paces topology.now (S.feeds supply.now)) spec.now) → IsSome (body_at B.look bodies.old.items at) }
    ensures opens { OpensOne (supplied (at_paces topology.now (S.feeds supply.now)) spec.now) at result (⟦<E as SeenEdges>⟧.seen edges.old) (⟦<E as SeenEdges>⟧.seen edges.new) (body_at B.look bodies.old.items) (body_at B.look bodies.new.items) }
    ensures same { OnErr result (bodies.new.items ≡ bodies.old.items) }
    ensures len { length bodies.new.items ≡ length bodies.old.items }
{
    match spec.role {
        Role::Producer => {
            let gate = gate_at(&topology.rate, producers, spec.index);
            supply_into(alloc, supply, spec, gate, at, bodies, edges)
        }
        Role::BatchProcessor => match &spec.edge {
            Some(name) => open_sink_into(alloc, name, at, bodies, edges),
            None => Ok(()),
        },
        _ => Ok(()),
    }
}

/// Supplies the producers with their sources, each in its gate where there is a rate, and opens the sinks of the batch processors,
/// in stage order, into their bodies. After a failure what was opened before it stands in the bodies.
fn open_stages<E: Edges, S: Supply<E>, B: Houses<GatedSource<S::Source>, E::Sink>>(
    alloc: Global,
    supply: &S,
    topology: &Topology,
    bodies: &mut Vec<Option<B>>,
    edges: &mut E,
) -> Result<(), Unopened>
    requires sound { IsSound topology.now }
    requires home { AreHome (at_paces topology.now (S.feeds supply.now)) topology.now (body_at B.look bodies.old.items) }
    ensures asks { OnOk result (Asks (edge_calls (at_paces topology.now (S.feeds supply.now)) topology.now) (⟦<E as SeenEdges>⟧.seen edges.old) (⟦<E as SeenEdges>⟧.seen edges.new)) }
    ensures opened { OnOk result (AreOpened (at_paces topology.now (S.feeds supply.now)) topology.now (length topology.now.stages) (⟦<E as SeenEdges>⟧.seen edges.old) (body_at B.look bodies.old.items) (body_at B.look bodies.new.items)) }
    ensures failed { IfErr result (λ e. IfFailed e (λ name. IsFailed (at_paces topology.now (S.feeds supply.now)) topology.now name (⟦<E as SeenEdges>⟧.seen edges.old) (⟦<E as SeenEdges>⟧.seen edges.new) (body_at B.look bodies.old.items) (body_at B.look bodies.new.items))) }
    ensures cut_off { IfErr result (λ e. IfCutOff e (IsCutOff (at_paces topology.now (S.feeds supply.now)) topology.now (⟦<E as SeenEdges>⟧.seen edges.old) (⟦<E as SeenEdges>⟧.seen edges.new) (body_at B.look bodies.old.items) (body_at B.look bodies.new.items))) }
    ensures len { length bodies.new.items ≡ length bodies.old.items }
    ensures callbacks { KeepsCallbacks (body_at B.look bodies.old.items) (body_at B.look bodies.new.items) }
{
    let producers = count_producers(topology);
    for spec in topology.stages.as_slice() {
        let at = place_of(Post {
            stage: spec.no,
            slot: 0,
        });
        match open_stage(alloc, supply, topology, producers, spec, at, bodies, edges) {
            Ok(()) => {}
            Err(unopened) => return Err(unopened),
        }
    }
    Ok(())
}

/// Opens the control source, and then what the stages name; or gives back what was opened before a call failed, the control
/// source first. Where giving back finds no memory, or opening did, some of what was opened may still stand in the bodies.
pub fn open_or_give_back<E: Edges, S: Supply<E>, B: Houses<GatedSource<S::Source>, E::Sink>>(
    alloc: Global,
    supply: &S,
    topology: &Topology,
    bodies: &mut Vec<Option<B>>,
    edges: &mut E,
) -> Result<Option<LineSource<E::Source>>, Unopened>
    requires sound { IsSound topology.now }
    requires home { AreHome (at_paces topology.now (S.feeds supply.now)) topology.now (body_at B.look bodies.old.items) }
    ensures asks { OnOk result (Asks (run_calls (at_paces topology.now (S.feeds supply.now)) topology.now) (⟦<E as SeenEdges>⟧.seen edges.old) (⟦<E as SeenEdges>⟧.seen edges.new)) }
    ensures control { IfOk result (λ control. HasSource (⟦<E as SeenEdges>⟧.seen edges.old) (control_call topology.now.control) None
        (option_map (line_seen E.Source.ByteSource) control)) }
    ensures opened { OnOk result (AreOpened (at_paces topology.now (S.feeds supply.now)) topology.now (length topology.now.stages) (⟦<E as SeenEdges>⟧.seen edges.old) (body_at B.look bodies.old.items) (body_at B.look bodies.new.items)) }
    ensures undone { IfErr result (λ e. IfFailed e (λ name. IsUndone (at_paces topology.now (S.feeds supply.now)) topology.now name (body_at B.look bodies.old.items) (⟦<E as SeenEdges>⟧.seen edges.old) (⟦<E as SeenEdges>⟧.seen edges.new))) }
    ensures in_part { IfErr result (λ e. IfCutOff e (IsCutShort (at_paces topology.now (S.feeds supply.now)) topology.now (body_at B.look bodies.old.items) (⟦<E as SeenEdges>⟧.seen edges.old) (⟦<E as SeenEdges>⟧.seen edges.new))) }
    ensures len { length bodies.new.items ≡ length bodies.old.items }
    ensures callbacks { KeepsCallbacks (body_at B.look bodies.old.items) (body_at B.look bodies.new.items) }
{
    match open_control(alloc, &topology.control, edges) {
        Ok(control) => match open_stages(alloc, supply, topology, bodies, edges) {
            Ok(()) => Ok(control),
            Err(unopened) => match give_back(supply, topology, control, bodies, edges) {
                Ok(()) => Err(unopened),
                Err(_) => Err(Unopened::OutOfMemory),
            },
        },
        Err(unopened) => Err(unopened),
    }
}
