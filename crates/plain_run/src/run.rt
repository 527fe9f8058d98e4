//! The run.

ghost use Rattle.std.specs.{Prelude.{◌≡◌, ◌∷◌, [], true, false, length, is_some, nat_lt, option_map, slice_get, IfOk, IfErr, OnErr, Ok}, List.{filter_map}};
ghost use Rattle.pipe_types.specs.Sound.{IsSound};
ghost use Rattle.pipe_model.specs.{Acknowledgements.{numbers_upto}, History.{accepted as accepted_in}, Flow.{place}, Legal.{allows, is_legal, happened, is_halt}};
ghost use Rattle.pipe_model.specs.Moves.{is_drained as is_drained_as};
ghost use Rattle.core_state.specs.Stands.{Stands};
ghost use Rattle.settle_laws.specs.Settled.{row_of, settled_last};
ghost use Rattle.plain_run.specs.Jobs.{named_at as named_at_as};

use crate::after::After;
use crate::jobs::named_at;
use crate::judges::has_halted;
use crate::settled::{judge_and_note, settled_row};
use crate::standing::{accepted, is_drained, places};
use crate::works::{Works, new_works};
use core_state::Core;
use core_tables::place_table::PlaceTable;
use pipe_journal::Journal;
use pipe_types::message::Outcome;
use pipe_types::numbers::{MsgNo, Post, StageNo};
use pipe_types::step::Step;
use pipe_types::topology::Topology;
use std::alloc::{AllocError, Global};
use std::marker::Model;

/// A topology, and the steps so far, which are legal for it.
#[derive(Drop)]
pub struct PlainRun {
    core: Core,
    works: Works,
    after: After,
    // The messages that the last step acknowledged, ascending.
    settled: Vec<u32>,
}

impl Model for PlainRun {
    ghost use Rattle.plain_run.specs.Runs.{IsWhole};
    ghost use Rattle.plain_run.specs.Seen.{RunSeen};

    ghost Value = { RunSeen };

    ghost view = { λ r. record { topology = r.core.topology; steps = r.core.journal.steps } };

    ghost invariant = { λ r. IsWhole r.core r.works r.after r.settled.items };
}

impl PlainRun {
    /// A run without a step. What it takes later comes from `alloc`. Where memory is wanting the topology is given back.
    pub fn new(alloc: Global, topology: Topology) -> Result<PlainRun, (Topology, AllocError)>
        requires sound { IsSound topology }
        ensures topology { IfOk result (λ run. run.topology ≡ topology) }
        ensures steps { IfOk result (λ run. run.steps ≡ []) }
        ensures returned { IfErr result (λ refused. refused.0 ≡ topology) }
    {
        match Core::new(alloc, topology) {
            Ok(core) => PlainRun::begin(alloc, core),
            Err(refused) => Err(refused),
        }
    }

    /// A run over a core without a step.
    fn begin(alloc: Global, core: Core) -> Result<PlainRun, (Topology, AllocError)>
        requires stands { Stands core }
        requires empty { core.journal.steps ≡ [] }
        ensures topology { IfOk result (λ run. run.topology ≡ core.topology) }
        ensures steps { IfOk result (λ run. run.steps ≡ []) }
        ensures returned { IfErr result (λ refused. refused.0 ≡ core.topology) }
    {
        let count = core.topology.stages.as_slice().len() + 1;
        match new_works(alloc, count) {
            Ok(works) => Ok(PlainRun {
                core,
                works,
                after: After::Free,
                settled: Vec::new(alloc),
            }),
            Err(failed) => {
                let (topology, _) = core.into_parts();
                Err((topology, failed))
            }
        }
    }

    /// Appends the step where it is legal after the steps so far, and answers whether it is. Otherwise, and where memory is
    /// wanting, the steps are as they were.
    pub fn step(&mut self, step: &Step) -> Result<bool, AllocError>
        ensures told { IfOk result (λ yes. yes ≡ allows self.old.topology self.old.steps step.now) }
        ensures appended { IfOk result (λ yes. yes ≡ true → self.new.steps ≡ step.now ∷ self.old.steps) }
        ensures refused { IfOk result (λ yes. yes ≡ false → self.new.steps ≡ self.old.steps) }
        ensures unchanged { OnErr result (self.new.steps ≡ self.old.steps) }
        ensures topology { self.new.topology ≡ self.old.topology }
    {
        let next = judge_and_note(
            &mut self.core,
            &mut self.works,
            &mut self.settled,
            self.after,
            step,
        )?;
        let legal = next.is_some();
        self.after = next.unwrap_or(self.after);
        Ok(legal)
    }

    /// Number and producer of the message at that place, from 0, of the chunk or the child that is out at the post.
    pub fn chunk(&self, post: Post, at: u32) -> Option<(MsgNo, StageNo)>
        ensures { result ≡ named_at_as self.now.topology self.now.steps post at }
    {
        self.message_at(post, at as usize)
    }

    /// The same, by a place in memory.
    pub fn message_at(&self, post: Post, at: usize) -> Option<(MsgNo, StageNo)>
        ensures { result ≡ named_at_as self.now.topology self.now.steps post at }
    {
        named_at(&self.core, &self.works, post, at)
    }

    /// The steps so far.
    pub fn journal(&self) -> &Journal
        ensures steps { result.now.steps ≡ self.now.steps }
        ensures sound { IsSound self.now.topology }
        ensures legal { is_legal self.now.topology self.now.steps ≡ true }
    {
        self.core.journal()
    }

    /// The topology.
    pub fn topology(&self) -> &Topology
        ensures { result.now ≡ self.now.topology }
    {
        self.core.topology()
    }

    /// How many messages were accepted.
    pub fn accepted(&self) -> u32
        ensures { result ≡ accepted_in self.now.steps }
    {
        accepted(&self.core)
    }

    /// The places of the accepted messages, in order of their numbers.
    pub fn places(&self) -> &PlaceTable
        ensures all { result.now.items ≡ filter_map (place self.now.topology self.now.steps) (numbers_upto (accepted_in self.now.steps)) }
        ensures len { length result.now.items ≡ accepted_in self.now.steps }
    {
        places(&self.core)
    }

    /// The message at that place, from 0, of those that the last step acknowledged, ascending, with its producer and its outcome;
    /// none just past their number.
    pub fn settled(&self, at: u32) -> Option<(MsgNo, StageNo, Outcome)>
        ensures row { result ≡ row_of self.now.topology self.now.steps (slice_get (settled_last self.now.topology self.now.steps) at) }
        ensures past { is_some result ≡ nat_lt at (length (settled_last self.now.topology self.now.steps)) }
    {
        settled_row(&self.core, &self.settled, at as usize)
    }

    /// Whether the drain has begun, no job is out, and every accepted message is acknowledged or lost.
    pub fn is_drained(&self) -> bool
        ensures { result ≡ is_drained_as self.now.topology self.now.steps }
    {
        is_drained(&self.core)
    }

    /// Whether the pipeline has halted.
    pub fn has_halted(&self) -> bool
        ensures { result ≡ happened is_halt self.now.steps }
    {
        has_halted(&self.core)
    }

    /// The topology and the steps so far.
    pub fn into_parts(self) -> (Topology, Journal)
        ensures topology { result.0 ≡ self.topology }
        ensures steps { result.1.steps ≡ self.steps }
        ensures sound { IsSound self.topology }
        ensures legal { is_legal self.topology self.steps ≡ true }
    {
        self.core.into_parts()
    }
}
