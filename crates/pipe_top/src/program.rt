//! The top call.

ghost use Rattle.std.specs.Prelude.{◌≡◌, ◌≢◌, ◌⊎◌, ◌≤◌, [], None, Some, IsTrue, count_by, length, map, option_map};
ghost use Rattle.pipe_types.specs.{Counts.{Rose}, Sound.{IsSound, is_producer as is_producer_role, producers as producers_of}};
ghost use Rattle.program_words.specs.{Refusals.{memory_line}, Words.{command_of, texts_of, Flow, Check, Run, Gen, Upgrade, Audit}};
ghost use Rattle.pipe_run.specs.Clocks.{clock_seen};
ghost use Rattle.box_stock.specs.Lends.{kinds_of};
ghost use Rattle.topology_needs.specs.{Needs.{boxes_in}, declared.stock.Boxes.{Boxes}};
ghost use Rattle.pipe_top.specs.{Cases.{InCase}, Runs.{IsRunOrNone, IsCall, IsKnownStatus, IsRefusalStatus, IsUnopenedStatus, IsOr}, Flows.{Came, ComesAudited}};
ghost use Rattle.run_verdicts.specs.Verdicts.{AddsPrefix, CanBeShown};

use crate::audit::{audit_named, audited};
use crate::file::{checked, finish_upgrade, read_named, sink_of, upgrade_named};
use crate::run::{Ran, refused, run_or_refuse};
use box_stock::{Boxed, Carries};
use config_flow::flow_topology;
use edge_names::{ByName, SeenEdges, SeenSink};
use made_sources::{Made, MadeSource};
use pipe_edges::{Clock, Edges};
use pipe_journal::Journal;
use pipe_types::topology::{Role, StageSpec, Topology};
use program_words::{AuditWords, Command, FlowWords, GenWords, RunWords, read_words};
use rate_gate::GatedSource;
use run_verdicts::{Refusal, Shows, write_verdict};
use stage_bodies::Houses;
use std::alloc::Global;
use std::sync::Wait;
use std::thread::Threads;

/// What a call came to: its status, the topology and the journal of its run, and the clock and the boxes that it was
/// given, these in their order.
#[derive(Drop)]
pub struct RunEnd<C, K> {
    pub status: u8,
    pub topology: Option<Topology>,
    pub journal: Journal,
    pub clock: K,
    pub stock: Vec<C>,
}

/// Runs the command that the words are. What its topology file, if it names one, and the stock come to is its case. Where the
/// topology has no idle limit, a run may wait for its sources for ever. The bodies of a run are `B`, and those of a run over
/// generated records `G`.
pub fn run_program<
    R: Threads + Wait + Sync,
    E: Edges,
    C: Boxed,
    B: Carries<C> + Houses<GatedSource<E::Source>, E::Sink> + Send,
    G: Carries<C> + Houses<GatedSource<MadeSource>, E::Sink> + Send,
    K: Clock + Send + Drop,
>(
    rt: &R,
    alloc: Global,
    words: &Vec<String>,
    stock: Vec<C>,
    edges: &mut E,
    clock: K,
    out: &mut E::Out,
    err: &mut E::Out,
) -> RunEnd<C, K>
    ensures known { IsKnownStatus result.status }
    // The journal is legal and keeps every claim, each step of its own accord was the next move, and no interval brings more
    // records than a rate allows.
    ensures run { IsRunOrNone result.topology result.journal.steps }
    // What the call comes to in the case of its words, of the bytes of their topology file, and of the stock.
    ensures call { InCase (E.told edges.old) (E.named edges.old) (command_of (texts_of words.now.items)) (boxes_in (kinds_of C.seen stock.items))
        (IsCall
        (record { edges = ⟦<E as SeenEdges>⟧.seen edges.old; clock = clock_seen K.latest K.readings K.pauses clock; boxes = map C.seen stock.items })
        (record { edges = ⟦<E as SeenEdges>⟧.seen edges.new; clock = clock_seen K.latest K.readings K.pauses result.clock; boxes = map C.seen result.stock.items })
        (⟦<E::Out as SeenSink>⟧.seen out.old) (⟦<E::Out as SeenSink>⟧.seen out.new) (⟦<E::Out as SeenSink>⟧.seen err.old) (⟦<E::Out as SeenSink>⟧.seen err.new)
        (command_of (texts_of words.now.items)) result.topology result.journal.steps result.status) }
    // 7 comes only where the words are no command, which come to it unless a write failed or memory was wanting; 8 comes only
    // where a write failed; 9 is want of memory, and nothing was written to the output.
    ensures usage { result.status ≡ 7 → command_of (texts_of words.now.items) ≡ None }
    ensures no_command { command_of (texts_of words.now.items) ≡ None → IsOr 7 result.status }
    ensures output_fault { result.status ≡ 8 → Rose (E.Out.faults out.old) (E.Out.faults out.new) ⊎ Rose (E.Out.faults err.old) (E.Out.faults err.new) }
    ensures memory { result.status ≡ 9 → IsTrue (E.Out.told err.old) → AddsPrefix (E.Out.held err.old) (E.Out.held err.new) memory_line }
    ensures memory_out { result.status ≡ 9 → IsTrue (E.Out.told out.old) → E.Out.held out.new ≡ E.Out.held out.old }
    // Under 5, 6 and 7 there is no run, and nothing was written to the output; but for 5 nothing was opened.
    ensures no_run { IsRefusalStatus result.status → (result.topology ≡ None) × (result.journal.steps ≡ []) }
    ensures not_opened { IsUnopenedStatus result.status → ((⟦<E as SeenEdges>⟧.seen edges.new).sources_back ≡ (⟦<E as SeenEdges>⟧.seen edges.old).sources_back)
        × ((⟦<E as SeenEdges>⟧.seen edges.new).sinks_back ≡ (⟦<E as SeenEdges>⟧.seen edges.old).sinks_back) }
    ensures no_output { IsRefusalStatus result.status → IsTrue (E.Out.told out.old) → E.Out.held out.new ≡ E.Out.held out.old }
{
    let Ran {
        verdict,
        topology,
        journal,
        stock,
        clock,
    } = run_words::<R, E, C, B, G, K>(rt, alloc, words, stock, edges, clock);
    let status = write_verdict(alloc, &verdict, &journal, out, err);
    RunEnd {
        status,
        topology,
        journal,
        clock,
        stock,
    }
}

/// Runs the command that the words are, and answers what it came to.
fn run_words<
    R: Threads + Wait + Sync,
    E: Edges,
    C: Boxed,
    B: Carries<C> + Houses<GatedSource<E::Source>, E::Sink> + Send,
    G: Carries<C> + Houses<GatedSource<MadeSource>, E::Sink> + Send,
    K: Clock + Send + Drop,
>(rt: &R, alloc: Global, words: &Vec<String>, stock: Vec<C>, edges: &mut E, clock: K) -> Ran<C, K>
    ensures came { Came
        (record { edges = ⟦<E as SeenEdges>⟧.seen edges.old; clock = clock_seen K.latest K.readings K.pauses clock; boxes = map C.seen stock.items })
        (record { edges = ⟦<E as SeenEdges>⟧.seen edges.new; clock = clock_seen K.latest K.readings K.pauses result.clock; boxes = map C.seen result.stock.items })
        (command_of (texts_of words.now.items)) (boxes_in (kinds_of C.seen stock.items)) result.topology result.journal.steps result.verdict }
    ensures shown { CanBeShown result.verdict result.journal }
{
    match read_words(alloc, words.as_slice()) {
        Ok(Some(Command::Flow(words))) => run_flow::<R, E, C, B, K>(
            rt, alloc, words, stock, edges, clock,
        ),
        Ok(Some(Command::Check(path))) => check_file(alloc, path, stock, edges, clock),
        Ok(Some(Command::Upgrade(path))) => upgrade_file(alloc, path, stock, edges, clock),
        Ok(Some(Command::Audit(words))) => audit_file(alloc, words, stock, edges, clock),
        Ok(Some(Command::Run(words))) => run_file::<R, E, C, B, K>(
            rt, alloc, words, stock, edges, clock,
        ),
        Ok(Some(Command::Gen(words))) => run_generated::<R, E, C, G, K>(
            rt, alloc, words, stock, edges, clock,
        ),
        Ok(None) => refused(alloc, Refusal::Usage, stock, clock),
        Err(_) => refused(alloc, Refusal::Memory, stock, clock),
    }
}

/// Runs the topology of `flow`, and writes the report alone.
fn run_flow<
    R: Threads + Wait + Sync,
    E: Edges,
    C: Boxed,
    B: Carries<C> + Houses<GatedSource<E::Source>, E::Sink> + Send,
    K: Clock + Send + Drop,
>(rt: &R, alloc: Global, words: FlowWords<'_>, stock: Vec<C>, edges: &mut E, clock: K) -> Ran<C, K>
    ensures came { Came
        (record { edges = ⟦<E as SeenEdges>⟧.seen edges.old; clock = clock_seen K.latest K.readings K.pauses clock; boxes = map C.seen stock.items })
        (record { edges = ⟦<E as SeenEdges>⟧.seen edges.new; clock = clock_seen K.latest K.readings K.pauses result.clock; boxes = map C.seen result.stock.items })
        (Some (Flow words.entry.source.now words.entry.prefix.now)) (boxes_in (kinds_of C.seen stock.items)) result.topology result.journal.steps result.verdict }
    ensures shown { CanBeShown result.verdict result.journal }
{
    let Ok(topology) = flow_topology(alloc, words.source, words.prefix) else {
        return refused(alloc, Refusal::Memory, stock, clock);
    };
    let shows = Shows {
        steps: false,
        acks: false,
    };
    let supply = ByName::as_it_stands(alloc);
    run_or_refuse::<R, E, ByName, C, B, K>(
        rt, alloc, &supply, topology, 1, shows, None, stock, edges, clock,
    )
}

/// Reads the topology file of `check`, and counts.
fn check_file<E: Edges, C: Boxed, K: Clock>(
    alloc: Global,
    path: &str,
    stock: Vec<C>,
    edges: &mut E,
    clock: K,
) -> Ran<C, K>
    ensures came { (boxes : Boxes) → Came
        (record { edges = ⟦<E as SeenEdges>⟧.seen edges.old; clock = clock_seen K.latest K.readings K.pauses clock; boxes = map C.seen stock.items })
        (record { edges = ⟦<E as SeenEdges>⟧.seen edges.new; clock = clock_seen K.latest K.readings K.pauses result.clock; boxes = map C.seen result.stock.items })
        (Some (Check path.now)) boxes result.topology result.journal.steps result.verdict }
    ensures shown { CanBeShown result.verdict result.journal }
{
    match read_named(alloc, path, edges) {
        Ok(topology) => checked(alloc, topology, stock, clock),
        Err(refusal) => refused(alloc, refusal, stock, clock),
    }
}

/// Reads the topology file of `upgrade`, and writes it as version 2.
fn upgrade_file<E: Edges, C: Boxed, K: Clock>(
    alloc: Global,
    path: &str,
    stock: Vec<C>,
    edges: &mut E,
    clock: K,
) -> Ran<C, K>
    ensures came { (boxes : Boxes) → Came
        (record { edges = ⟦<E as SeenEdges>⟧.seen edges.old; clock = clock_seen K.latest K.readings K.pauses clock; boxes = map C.seen stock.items })
        (record { edges = ⟦<E as SeenEdges>⟧.seen edges.new; clock = clock_seen K.latest K.readings K.pauses result.clock; boxes = map C.seen result.stock.items })
        (Some (Upgrade path.now)) boxes result.topology result.journal.steps result.verdict }
    ensures shown { CanBeShown result.verdict result.journal }
{
    match upgrade_named(alloc, path, edges) {
        Ok(found) => finish_upgrade(alloc, found, stock, clock),
        Err(refusal) => refused(alloc, refusal, stock, clock),
    }
}

/// Reads the topology file of `audit`, and judges the journal by its topology.
fn audit_file<E: Edges, C: Boxed, K: Clock>(
    alloc: Global,
    words: AuditWords<'_>,
    stock: Vec<C>,
    edges: &mut E,
    clock: K,
) -> Ran<C, K>
    ensures came { (boxes : Boxes) → Came
        (record { edges = ⟦<E as SeenEdges>⟧.seen edges.old; clock = clock_seen K.latest K.readings K.pauses clock; boxes = map C.seen stock.items })
        (record { edges = ⟦<E as SeenEdges>⟧.seen edges.new; clock = clock_seen K.latest K.readings K.pauses result.clock; boxes = map C.seen result.stock.items })
        (Some (Audit words.entry.journal.now words.entry.topology.now)) boxes result.topology result.journal.steps result.verdict }
    ensures shown { CanBeShown result.verdict result.journal }
{
    match read_named(alloc, words.topology, edges) {
        Ok(topology) => audit_journal(alloc, words.journal, topology, stock, edges, clock),
        Err(refusal) => refused(alloc, refusal, stock, clock),
    }
}

/// Judges the journal of this name by the topology.
fn audit_journal<E: Edges, C: Boxed, K: Clock>(
    alloc: Global,
    name: &str,
    topology: Topology,
    stock: Vec<C>,
    edges: &mut E,
    clock: K,
) -> Ran<C, K>
    requires sound { IsSound topology }
    ensures comes { ComesAudited
        (record { edges = ⟦<E as SeenEdges>⟧.seen edges.old; clock = clock_seen K.latest K.readings K.pauses clock; boxes = map C.seen stock.items })
        (record { edges = ⟦<E as SeenEdges>⟧.seen edges.new; clock = clock_seen K.latest K.readings K.pauses result.clock; boxes = map C.seen result.stock.items })
        name.now topology result.topology result.journal.steps result.verdict }
    ensures shown { CanBeShown result.verdict result.journal }
{
    match audit_named(alloc, name, &topology, edges) {
        Ok(summary) => audited(alloc, topology, &summary, stock, clock),
        Err(refusal) => refused(alloc, refusal, stock, clock),
    }
}

/// Reads the topology file of `run`, and runs its topology.
fn run_file<
    R: Threads + Wait + Sync,
    E: Edges,
    C: Boxed,
    B: Carries<C> + Houses<GatedSource<E::Source>, E::Sink> + Send,
    K: Clock + Send + Drop,
>(rt: &R, alloc: Global, words: RunWords<'_>, stock: Vec<C>, edges: &mut E, clock: K) -> Ran<C, K>
    ensures came { Came
        (record { edges = ⟦<E as SeenEdges>⟧.seen edges.old; clock = clock_seen K.latest K.readings K.pauses clock; boxes = map C.seen stock.items })
        (record { edges = ⟦<E as SeenEdges>⟧.seen edges.new; clock = clock_seen K.latest K.readings K.pauses result.clock; boxes = map C.seen result.stock.items })
        (Some (Run words.entry.topology.now words.entry.workers words.entry.acks words.entry.steps (option_map (λ sink. sink.now) words.entry.live))) (boxes_in (kinds_of C.seen stock.items)) result.topology result.journal.steps result.verdict }
    ensures shown { CanBeShown result.verdict result.journal }
{
    let shows = Shows {
        steps: words.steps,
        acks: words.acks,
    };
    let Ok(live) = sink_of(alloc, words.live) else {
        return refused(alloc, Refusal::Memory, stock, clock);
    };
    match read_named(alloc, words.topology, edges) {
        Ok(topology) => {
            let supply = ByName::of_file(alloc, &topology);
            run_or_refuse::<R, E, ByName, C, B, K>(
                rt,
                alloc,
                &supply,
                topology,
                words.workers,
                shows,
                live,
                stock,
                edges,
                clock,
            )
        }
        Err(refusal) => refused(alloc, refusal, stock, clock),
    }
}

/// Reads the topology file of `gen`, runs its topology on one worker over generated records, and writes the report alone.
fn run_generated<
    R: Threads + Wait + Sync,
    E: Edges,
    C: Boxed,
    G: Carries<C> + Houses<GatedSource<MadeSource>, E::Sink> + Send,
    K: Clock + Send + Drop,
>(rt: &R, alloc: Global, words: GenWords<'_>, stock: Vec<C>, edges: &mut E, clock: K) -> Ran<C, K>
    ensures came { Came
        (record { edges = ⟦<E as SeenEdges>⟧.seen edges.old; clock = clock_seen K.latest K.readings K.pauses clock; boxes = map C.seen stock.items })
        (record { edges = ⟦<E as SeenEdges>⟧.seen edges.new; clock = clock_seen K.latest K.readings K.pauses result.clock; boxes = map C.seen result.stock.items })
        (Some (Gen words.entry.seed words.entry.count words.entry.topology.now)) (boxes_in (kinds_of C.seen stock.items)) result.topology result.journal.steps result.verdict }
    ensures shown { CanBeShown result.verdict result.journal }
{
    let shows = Shows {
        steps: false,
        acks: false,
    };
    match read_named(alloc, words.topology, edges) {
        Ok(topology) => {
            let supply = Made::new(words.seed, words.count, producers(&topology));
            run_or_refuse::<R, E, Made, C, G, K>(
                rt, alloc, &supply, topology, 1, shows, None, stock, edges, clock,
            )
        }
        Err(refusal) => refused(alloc, refusal, stock, clock),
    }
}

/// How many producers the topology has.
fn producers(topology: &Topology) -> u32
    requires sound { IsSound topology.now }
    ensures number { result ≡ length (producers_of topology.now.stages) }
    ensures some { 1 ≤ result }
{
    count_producers(topology.stages.as_slice()) as u32
}

fn count_producers(stages: &[StageSpec]) -> usize
    ensures { result ≡ count_by (λ s. is_producer_role s.role) stages.now }
{
    stages.iter().filter(|stage| is_producer(stage)).count()
}

fn is_producer(stage: &StageSpec) -> bool
    ensures { result ≡ is_producer_role stage.now.role }
{
    stage.role == Role::Producer
}
