//! The topology file.

ghost use Rattle.std.specs.Prelude.{◌≡◌, ◌⊎◌, ◌≤◌, ℕ, List, [], Ok, Some, None, IsTrue, IfOk, IfErr, option_map};
ghost use Rattle.pipe_types.specs.{Counts.{Rose}, Sound.{IsSound}};
ghost use Rattle.pipe_config.specs.{File.{topology_of_file}, Upgrade.{IsUpgrade}};
ghost use Rattle.run_verdicts.specs.Verdicts.{CanBeShown};
ghost use Rattle.pipe_top.specs.Flows.{ReadsFile, ReadsTopology, ReadsUpgrade, UpgradesTo, IsUpgraded, IsChecked, IsCheckedOrNot};

use crate::run::{Ran, refused};
use edge_names::SeenEdges;
use pipe_config::{ConfigFault, UpgradeFault, read_topology, upgrade};
use pipe_edges::{EdgeEnd, Edges};
use pipe_journal::Journal;
use pipe_types::bytes::{Bytes, Text};
use pipe_types::topology::Topology;
use program_words::counts_line;
use run_verdicts::{Refusal, Texts, Verdict};
use std::alloc::{AllocError, Global};
use topology_needs::subscriptions;

/// The topology of a file, and its text as version 2.
#[derive(Drop)]
pub(crate) struct Upgraded {
    pub(crate) topology: Topology,
    pub(crate) text: Bytes,
}

pub(crate) fn text_of(alloc: Global, word: &str) -> Result<Text, AllocError>
    ensures { IfOk result (λ text. text ≡ word.now) }
{
    Ok(Text::from_string(String::from_str(alloc, word)?))
}

/// The name of the live sink, if there is one.
pub(crate) fn sink_of(alloc: Global, name: Option<&str>) -> Result<Option<Text>, AllocError>
    ensures { IfOk result (λ live. live ≡ option_map (λ sink. sink.now) name.entry) }
{
    match name {
        Some(name) => Ok(Some(text_of(alloc, name)?)),
        None => Ok(None),
    }
}

/// The topology of the file with this name, or why there is none.
pub(crate) fn read_named<E: Edges>(
    alloc: Global,
    name: &str,
    edges: &mut E,
) -> Result<Topology, Refusal>
    ensures { ReadsFile (⟦<E as SeenEdges>⟧.seen edges.old) (⟦<E as SeenEdges>⟧.seen edges.new) name.now topology_of_file result }
{
    let Ok(name) = text_of(alloc, name) else {
        return Err(Refusal::Memory);
    };
    match edges.read_file(&name) {
        Ok(bytes) => topology_in(alloc, &bytes),
        Err(EdgeEnd::Failed) => Err(Refusal::Edge(name)),
        Err(EdgeEnd::OutOfMemory) => Err(Refusal::Memory),
    }
}

/// The topology that the bytes are, or why they are none.
fn topology_in(alloc: Global, bytes: &Bytes) -> Result<Topology, Refusal>
    ensures { ReadsTopology (topology_of_file bytes.now) [] ⊥ result }
{
    match read_topology(alloc, bytes.as_slice()) {
        Ok(topology) => Ok(topology),
        Err(ConfigFault::OutOfMemory) => Err(Refusal::Memory),
        Err(fault) => Err(Refusal::Topology(fault)),
    }
}

/// The counts of a topology that is only checked.
pub(crate) fn checked<C, K>(alloc: Global, topology: Topology, stock: Vec<C>, clock: K) -> Ran<C, K>
    requires sound { IsSound topology }
    ensures same_boxes { result.stock.items ≡ stock.items }
    ensures same_clock { result.clock ≡ clock }
    ensures shown { CanBeShown result.verdict result.journal }
    ensures checked { IsCheckedOrNot topology result.topology result.journal.steps result.verdict }
{
    let stages = topology.stages.as_slice().len();
    match counts_line(alloc, stages, subscriptions(&topology)) {
        Ok(last) => Ran {
            verdict: Verdict::Done {
                texts: Texts {
                    steps: false,
                    acks: None,
                    last,
                },
                status: 0,
            },
            topology: Some(topology),
            journal: Journal::new(alloc),
            stock,
            clock,
        },
        Err(_) => refused(alloc, Refusal::Memory, stock, clock),
    }
}

/// The topology of the file with this name and its text as version 2, or why there is none.
pub(crate) fn upgrade_named<E: Edges>(
    alloc: Global,
    name: &str,
    edges: &mut E,
) -> Result<Upgraded, Refusal>
    ensures { ReadsUpgrade (⟦<E as SeenEdges>⟧.seen edges.old) (⟦<E as SeenEdges>⟧.seen edges.new) name.now topology_of_file result }
{
    let Ok(name) = text_of(alloc, name) else {
        return Err(Refusal::Memory);
    };
    match edges.read_file(&name) {
        Ok(bytes) => upgrade_in(alloc, &bytes),
        Err(EdgeEnd::Failed) => Err(Refusal::Edge(name)),
        Err(EdgeEnd::OutOfMemory) => Err(Refusal::Memory),
    }
}

/// The text of a file of this topology as version 2, beside the topology.
fn upgrade_of(alloc: Global, bytes: &Bytes, topology: Topology) -> Result<Upgraded, Refusal>
    requires named { topology_of_file bytes.now ≡ Ok topology }
    requires sound { IsSound topology }
    ensures { UpgradesTo (topology_of_file bytes.now) bytes.now result }
{
    match upgrade(alloc, bytes.as_slice()) {
        Ok(text) => Ok(Upgraded { topology, text }),
        Err(UpgradeFault::OutOfMemory) => Err(Refusal::Memory),
        Err(UpgradeFault::Refused(fault)) => Err(Refusal::Topology(fault)),
    }
}

/// The topology that the bytes are and their text as version 2, or why they are none.
fn upgrade_in(alloc: Global, bytes: &Bytes) -> Result<Upgraded, Refusal>
    ensures { UpgradesTo (topology_of_file bytes.now) bytes.now result }
{
    match topology_in(alloc, bytes) {
        Ok(topology) => upgrade_of(alloc, bytes, topology),
        Err(refusal) => Err(refusal),
    }
}

/// The text of a file as version 2.
pub(crate) fn finish_upgrade<C, K>(
    alloc: Global,
    found: Upgraded,
    stock: Vec<C>,
    clock: K,
) -> Ran<C, K>
    requires sound { IsSound found.topology }
    ensures same_boxes { result.stock.items ≡ stock.items }
    ensures same_clock { result.clock ≡ clock }
    ensures shown { CanBeShown result.verdict result.journal }
    ensures upgraded { (file : List ℕ) → IsUpgrade file found.text
        → IsUpgraded file found.text found.topology result.topology result.journal.steps result.verdict }
{
    let Upgraded { topology, text } = found;
    Ran {
        verdict: Verdict::Done {
            texts: Texts {
                steps: false,
                acks: None,
                last: text,
            },
            status: 0,
        },
        topology: Some(topology),
        journal: Journal::new(alloc),
        stock,
        clock,
    }
}
