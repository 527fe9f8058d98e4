//! The supply of a run over generated records.

ghost use Rattle.std.specs.Prelude.{◌≡◌, ◌≤◌, IfOk};
ghost use Rattle.stage_bodies.specs.Seen.{source_seen};
ghost use Rattle.edge_names.specs.Supplies.{IsMade};
ghost use Rattle.pipe_edges.specs.Texts.{ended};
ghost use Rattle.made_sources.specs.Records.{records_made};

use crate::records::made_source;
use crate::source::MadeSource;
use edge_names::{Supply, Unopened};
use pipe_edges::{ByteSource, Edges};
use pipe_types::topology::StageSpec;
use std::alloc::{AllocError, Global};

/// Gives each producer its share of the first `count` records of the seed.
#[derive(Drop)]
pub struct Made {
    seed: u32,
    count: u32,
    producers: u32,
    ghost some: { 1 ≤ producers },
}

impl Made {
    ghost use Rattle.made_sources.specs.Feeds.{seed_of, count_of, producers_of};

    /// For so many producers, which are the first stages of the topology.
    pub fn new(seed: u32, count: u32, producers: u32) -> Made
        requires some { 1 ≤ producers }
        ensures seed { seed_of result ≡ seed }
        ensures count { count_of result ≡ count }
        ensures producers { producers_of result ≡ producers }
    {
        Made {
            seed,
            count,
            producers,
        }
    }

    /// The records of the producer at this place, from 0, of which none was read.
    fn source_at(&self, alloc: Global, place: u32) -> Result<MadeSource, AllocError>
        ensures { IfOk result (λ source. IsMade (ended (records_made (seed_of self.now) (producers_of self.now) place (count_of self.now))) (source_seen ⟦<MadeSource as ByteSource>⟧ source)) }
    {
        made_source(alloc, self.seed, self.count, self.producers, place)
    }
}

impl<E: Edges> Supply<E> for Made {
    ghost use Rattle.made_sources.specs.Feeds.{made_feeds, seed_of, count_of, producers_of};

    type Source = MadeSource;

    ghost feeds = { λ m. made_feeds (seed_of m) (count_of m) (producers_of m) };

    fn merged(&self, spec: &StageSpec) -> Option<usize> {
        let _ = spec;
        None
    }

    #[tactic(auto, using(edge_names::proofs::Openings::asks_nothing))]
    fn supply(
        &self,
        alloc: Global,
        spec: &StageSpec,
        place: usize,
        edges: &mut E,
    ) -> Result<Option<MadeSource>, Unopened> {
        let _ = place;
        let _ = edges;
        match self.source_at(alloc, u32::from(spec.no.0).saturating_sub(1)) {
            Ok(source) => Ok(Some(source)),
            Err(AllocError) => Err(Unopened::OutOfMemory),
        }
    }

    fn take_back(
        &self,
        spec: &StageSpec,
        place: usize,
        source: MadeSource,
        edges: &mut E,
    ) -> Result<(), AllocError> {
        let _ = spec;
        let _ = place;
        let _ = edges;
        drop(source);
        Ok(())
    }
}
