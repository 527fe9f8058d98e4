//! How the producers of a run come to their sources.

ghost use Rattle.std.specs.Prelude.{◌≡◌, ◌≤◌, [], false, is_none, Some, Option, option_map, IfOk, IfErr, IfSome, OnOk, OnErr};
ghost use Rattle.pipe_types.specs.declared.topology.StageSpec.{StageSpec};
ghost use Rattle.stage_bodies.specs.Seen.{OneSource, source_seen};
ghost use Rattle.edge_names.specs.{Supplies.{Feed, by_name, feed_at, feed_calls, given_back, merge_count}, Naming.{splits_in}, Opened.{Asks, FailsToOpen, IfCutOff, IfFailed, IsSupplied}};
ghost use Rattle.edge_names.specs.Returned.{GivesBack, IsCalmFeed};

use crate::names::{copy_name, count_merged};
use crate::opening::Unopened;
use crate::seen::{SeenEdges, SeenSource};
use pipe_edges::{ByteSource, EdgeEnd, Edges};
use pipe_types::topology::{StageSpec, Topology};
use stage_bodies::has_several_sources;
use std::alloc::{AllocError, Global};

/// Supplies producers with their sources, and gives back what they opened.
pub trait Supply<E: Edges> {
    /// What producers read.
    type Source: ByteSource + Drop;

    /// How each producer comes to its source.
    ghost feeds: { Self → StageSpec → Option Feed };

    /// How many sources are merged into the one of a producer, 2 to 64, if it is a merge.
    fn merged(&self, spec: &StageSpec) -> Option<usize>
        ensures count { result ≡ merge_count (feeds self.now spec.now) }
        ensures few { IfSome result (λ n. (2 ≤ n) × (n ≤ 64)) };

    /// The source of a producer at a place, of which nothing was read, if it has one: of a merge that of one of its names, from 0,
    /// and else the one that it has. For want of memory nothing is opened.
    fn supply(
        &self,
        alloc: Global,
        spec: &StageSpec,
        place: usize,
        edges: &mut E,
    ) -> Result<Option<Self::Source>, Unopened>
        ensures asks { OnOk result (Asks (feed_calls (feed_at (feeds self.now spec.now) place)) (⟦<E as SeenEdges>⟧.seen edges.old) (⟦<E as SeenEdges>⟧.seen edges.new)) }
        ensures gives { IfOk result (λ source. IsSupplied (⟦<E as SeenEdges>⟧.seen edges.old) (feed_at (feeds self.now spec.now) place) (option_map (source_seen Self.Source.ByteSource) source)) }
        ensures failed { IfErr result (λ e. IfFailed e (λ n. FailsToOpen (feed_at (feeds self.now spec.now) place) n (⟦<E as SeenEdges>⟧.seen edges.old) (⟦<E as SeenEdges>⟧.seen edges.new))) }
        ensures cut_off { IfErr result (λ e. IfCutOff e (Asks [] (⟦<E as SeenEdges>⟧.seen edges.old) (⟦<E as SeenEdges>⟧.seen edges.new))) };

    /// Gives the source of a producer at a place back, under the name by which it was opened. For want of memory nothing is given
    /// back. A source that was made has counted no fault and no wait.
    fn take_back(
        &self,
        spec: &StageSpec,
        place: usize,
        source: Self::Source,
        edges: &mut E,
    ) -> Result<(), AllocError>
        ensures back { OnOk result (GivesBack (given_back (feed_at (feeds self.now spec.now) place) (Some (OneSource (⟦<Self::Source as SeenSource>⟧.seen source)))) []
            (⟦<E as SeenEdges>⟧.seen edges.old) (⟦<E as SeenEdges>⟧.seen edges.new)) }
        ensures nothing { OnErr result (GivesBack [] [] (⟦<E as SeenEdges>⟧.seen edges.old) (⟦<E as SeenEdges>⟧.seen edges.new)) }
        ensures calm { IsCalmFeed (feeds self.now spec.now) (⟦<Self::Source as SeenSource>⟧.seen source) };
}

/// Each producer opens the source that its stage names, or merges those that it names. Where there are several sources they are
/// opened so that a read waits for no peer, and none holds up the others.
#[derive(Clone, Copy)]
pub struct ByName {
    alloc: Global,
    splits: bool,
    has_several: bool,
}

impl ByName {
    /// As a topology file names them: a text that begins with `many:` is split into its names, which it is not beside a rate.
    pub fn of_file(alloc: Global, topology: &Topology) -> ByName
        ensures { splits_in result ≡ is_none topology.now.rate }
    {
        let splits = topology.rate.is_none();
        ByName {
            alloc,
            splits,
            has_several: has_several_sources(topology.stages.as_slice()),
        }
    }

    /// The one source of a pipeline by its name, as it stands.
    pub fn as_it_stands(alloc: Global) -> ByName
        ensures { splits_in result ≡ false }
    {
        ByName {
            alloc,
            splits: false,
            has_several: false,
        }
    }
}

// The calls are made here and not in generic functions over `Edges`, which a method of an implementation cannot call.
impl<E: Edges> Supply<E> for ByName {
    type Source = E::Source;

    ghost feeds = { λ s. by_name (splits_in s) };

    fn merged(&self, spec: &StageSpec) -> Option<usize> {
        match &spec.edge {
            Some(text) => count_merged(self.splits, text.as_str()),
            None => None,
        }
    }

    fn supply(
        &self,
        alloc: Global,
        spec: &StageSpec,
        place: usize,
        edges: &mut E,
    ) -> Result<Option<E::Source>, Unopened> {
        let Some(text) = &spec.edge else {
            return Ok(None);
        };
        let name = match copy_name(alloc, self.splits, text.as_str(), place) {
            Ok(Some(name)) => name,
            Ok(None) => return Ok(None),
            Err(_) => return Err(Unopened::OutOfMemory),
        };
        if self.has_several {
            match edges.open_stream(&name) {
                Ok(source) => Ok(Some(source)),
                Err(EdgeEnd::Failed) => Err(Unopened::Failed(name)),
                Err(EdgeEnd::OutOfMemory) => Err(Unopened::OutOfMemory),
            }
        } else {
            match edges.open_source(&name) {
                Ok(source) => Ok(Some(source)),
                Err(EdgeEnd::Failed) => Err(Unopened::Failed(name)),
                Err(EdgeEnd::OutOfMemory) => Err(Unopened::OutOfMemory),
            }
        }
    }

    fn take_back(
        &self,
        spec: &StageSpec,
        place: usize,
        source: E::Source,
        edges: &mut E,
    ) -> Result<(), AllocError> {
        let Some(text) = &spec.edge else {
            return Ok(());
        };
        if count_merged(self.splits, text.as_str()).is_none() {
            return edges.back_source(text, source);
        }
        match copy_name(self.alloc, self.splits, text.as_str(), place) {
            Ok(Some(name)) => edges.back_source(&name, source),
            Ok(None) => Ok(()),
            Err(error) => Err(error),
        }
    }
}
