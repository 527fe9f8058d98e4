//! What a run opens by name, and gives back.

ghost use Rattle.std.specs.Prelude.{◌≡◌, ◌≤◌, Bool, List, ℕ, take, IsTrue, IfOk};
ghost use Rattle.pipe_edges.specs.declared.edges.EdgeKind.{EdgeKind};
ghost use Rattle.pipe_types.specs.Counts.{Rose};
ghost use Rattle.pipe_edges.specs.Named.{IsFreshSource, GivesSource, GivesSink, asked_after, StandsAsBefore, OthersStand, KeepsBack, AddsBack, EdgeHasCause};

use crate::{ByteSink, ByteSource};
use pipe_types::bytes::{Bytes, Text};
use std::alloc::AllocError;

/// The most bytes that are read of a file by name: one more than a topology file may have.
pub const MAX_FILE_BYTES: usize = 1_048_577;

/// What stands under a name.
#[derive(Clone, Copy, PartialEq, Eq)]
pub enum EdgeKind {
    File,
    Source,
    Sink,
}

/// Why nothing was opened or read.
#[derive(Clone, Copy, PartialEq, Eq)]
pub enum EdgeEnd {
    Failed,
    OutOfMemory,
}

/// What a run opens by name. Its count of faults never falls; clauses on what stands under names and on the calls
/// hold where it tells. After want of memory it is as it was.
pub trait Edges {
    type Source: ByteSource + Send + Drop;

    type Sink: ByteSink + Send + Drop;

    type Out: ByteSink;

    /// Whether it tells what stands under its names, and its calls. No call changes it.
    ghost told: { Self → Bool };

    /// The bytes that stand under each name of each kind.
    ghost named: { Self → EdgeKind → List ℕ → List ℕ };

    /// The calls that opened or read, each with its kind and name, but for those that found no memory.
    ghost asked: { Self → List (EdgeKind × List ℕ) };

    /// How often a call failed.
    ghost faults: { Self → ℕ };

    /// The sources that were given back, each with its name.
    ghost sources_back: { Self → List (List ℕ × Self.Source) };

    /// The sinks that were given back, each with its name.
    ghost sinks_back: { Self → List (List ℕ × Self.Sink) };

    /// Opens the source of this name, which has taken nothing and counted nothing, and has no pace.
    fn open_source(&mut self, name: &Text) -> Result<Self::Source, EdgeEnd>
        ensures same_telling { told self.new ≡ told self.old }
        ensures fresh { IfOk result (IsFreshSource Self.Source.taken Self.Source.faults Self.Source.waits Self.Source.paced) }
        ensures given { IsTrue (told self.old)
            → IfOk result (GivesSource Self.Source.told Self.Source.left (named self.old EdgeKind.Source name.now)) }
        ensures stands { IsTrue (told self.old) → StandsAsBefore (named self.old) (named self.new) }
        ensures asked { IsTrue (told self.old)
            → asked self.new ≡ asked_after result EdgeKind.Source name.now (asked self.old) }
        ensures back { KeepsBack sources_back sinks_back self.old self.new }
        ensures faults_stay { faults self.old ≤ faults self.new }
        ensures cause { EdgeHasCause (faults self.old) (faults self.new) result };

    /// Opens the control source of this name, as `open_source` does. It is read between the jobs of a run, which stand still
    /// meanwhile: where reads may wait, an implementation opens it so that a read answers `Empty` at once.
    fn open_control(&mut self, name: &Text) -> Result<Self::Source, EdgeEnd>
        ensures same_telling { told self.new ≡ told self.old }
        ensures fresh { IfOk result (IsFreshSource Self.Source.taken Self.Source.faults Self.Source.waits Self.Source.paced) }
        ensures given { IsTrue (told self.old)
            → IfOk result (GivesSource Self.Source.told Self.Source.left (named self.old EdgeKind.Source name.now)) }
        ensures stands { IsTrue (told self.old) → StandsAsBefore (named self.old) (named self.new) }
        ensures asked { IsTrue (told self.old)
            → asked self.new ≡ asked_after result EdgeKind.Source name.now (asked self.old) }
        ensures back { KeepsBack sources_back sinks_back self.old self.new }
        ensures faults_stay { faults self.old ≤ faults self.new }
        ensures cause { EdgeHasCause (faults self.old) (faults self.new) result }
    {
        self.open_source(name)
    }

    /// Opens one of the sources of a merge, as `open_source` does. Its other sources are opened after it, and are read between
    /// its reads: where these may wait for a peer, an implementation opens it so that neither opening nor reading waits, and a
    /// read answers `Empty` at once.
    fn open_stream(&mut self, name: &Text) -> Result<Self::Source, EdgeEnd>
        ensures same_telling { told self.new ≡ told self.old }
        ensures fresh { IfOk result (IsFreshSource Self.Source.taken Self.Source.faults Self.Source.waits Self.Source.paced) }
        ensures given { IsTrue (told self.old)
            → IfOk result (GivesSource Self.Source.told Self.Source.left (named self.old EdgeKind.Source name.now)) }
        ensures stands { IsTrue (told self.old) → StandsAsBefore (named self.old) (named self.new) }
        ensures asked { IsTrue (told self.old)
            → asked self.new ≡ asked_after result EdgeKind.Source name.now (asked self.old) }
        ensures back { KeepsBack sources_back sinks_back self.old self.new }
        ensures faults_stay { faults self.old ≤ faults self.new }
        ensures cause { EdgeHasCause (faults self.old) (faults self.new) result }
    {
        self.open_source(name)
    }

    /// Opens the sink of this name, which has counted nothing.
    fn open_sink(&mut self, name: &Text) -> Result<Self::Sink, EdgeEnd>
        ensures same_telling { told self.new ≡ told self.old }
        ensures fresh { IfOk result (λ k. Self.Sink.faults k ≡ 0) }
        ensures given { IsTrue (told self.old)
            → IfOk result (GivesSink Self.Sink.told Self.Sink.held (named self.old EdgeKind.Sink name.now)) }
        ensures stands { IsTrue (told self.old) → StandsAsBefore (named self.old) (named self.new) }
        ensures asked { IsTrue (told self.old)
            → asked self.new ≡ asked_after result EdgeKind.Sink name.now (asked self.old) }
        ensures back { KeepsBack sources_back sinks_back self.old self.new }
        ensures faults_stay { faults self.old ≤ faults self.new }
        ensures cause { EdgeHasCause (faults self.old) (faults self.new) result };

    /// The bytes of the file of this name, at most the first `MAX_FILE_BYTES`.
    fn read_file(&mut self, name: &Text) -> Result<Bytes, EdgeEnd>
        ensures same_telling { told self.new ≡ told self.old }
        ensures given { IsTrue (told self.old)
            → IfOk result (λ b. b ≡ take MAX_FILE_BYTES (named self.old EdgeKind.File name.now)) }
        ensures stands { IsTrue (told self.old) → StandsAsBefore (named self.old) (named self.new) }
        ensures asked { IsTrue (told self.old)
            → asked self.new ≡ asked_after result EdgeKind.File name.now (asked self.old) }
        ensures back { KeepsBack sources_back sinks_back self.old self.new }
        ensures faults_stay { faults self.old ≤ faults self.new }
        ensures cause { EdgeHasCause (faults self.old) (faults self.new) result };

    /// Takes a source back under its name.
    fn back_source(&mut self, name: &Text, source: Self::Source) -> Result<(), AllocError>
        ensures same_telling { told self.new ≡ told self.old }
        ensures back { AddsBack result (name.now, source) (sources_back self.old) (sources_back self.new) }
        ensures sinks { sinks_back self.new ≡ sinks_back self.old }
        ensures stands { IsTrue (told self.old)
            → OthersStand EdgeKind.Source name.now (named self.old) (named self.new) }
        ensures asked { IsTrue (told self.old) → asked self.new ≡ asked self.old }
        ensures no_fault { faults self.new ≡ faults self.old };

    /// Takes a sink back under its name.
    fn back_sink(&mut self, name: &Text, sink: Self::Sink) -> Result<(), AllocError>
        ensures same_telling { told self.new ≡ told self.old }
        ensures back { AddsBack result (name.now, sink) (sinks_back self.old) (sinks_back self.new) }
        ensures sources { sources_back self.new ≡ sources_back self.old }
        ensures stands { IsTrue (told self.old)
            → OthersStand EdgeKind.Sink name.now (named self.old) (named self.new) }
        ensures asked { IsTrue (told self.old) → asked self.new ≡ asked self.old }
        ensures no_fault { faults self.new ≡ faults self.old };
}
