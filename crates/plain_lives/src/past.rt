//! What stands before a step.

ghost use Rattle.std.specs.Prelude.{◌≡◌, IfOk};
ghost use Rattle.pipe_model.specs.History.{history};
ghost use Rattle.pipe_model.specs.Lives.{death as death_in, is_live as is_live_in, generation as generation_in, current_sub as current_sub_in, is_live_sub as is_live_sub_in, live_subs_from as live_subs_from_in, live_subs as live_subs_in, kill_set as kill_set_in};
ghost use Rattle.pipe_types.specs.Numbers.{same_sub as same_sub_in};
ghost use Rattle.plain_lives.specs.Lives.{LivesStand};

use crate::deaths::{Death, Lives, generation, is_live, reason};
use crate::kills::killed_by;
use pipe_types::message::Why;
use pipe_types::numbers::{StageNo, SubNo};
use pipe_types::step::Step;
use pipe_types::topology::{Topology, feeds};
use plain_counts::{same_sub, unit_no};
use std::alloc::{AllocError, Global};

/// A topology, the steps so far, and the lives that they leave.
#[derive(Clone, Copy)]
pub struct Past<'a> {
    pub topology: &'a Topology,
    pub steps: &'a [Step],
    pub lives: &'a Lives,
}

impl Past<'_> {
    /// Why the stage is dead, and none where it is not.
    pub fn death(&self, stage: StageNo) -> Option<Why>
        requires { LivesStand self.now.topology.now (history self.now.steps.now) self.now.lives.now }
        ensures { result ≡ death_in self.now.topology.now (history self.now.steps.now) stage }
    {
        reason(self.lives.deaths.as_slice(), stage)
    }

    /// Whether the stage is live.
    pub fn is_live(&self, stage: StageNo) -> bool
        requires { LivesStand self.now.topology.now (history self.now.steps.now) self.now.lives.now }
        ensures { result ≡ is_live_in self.now.topology.now (history self.now.steps.now) stage }
    {
        is_live(self.topology, self.lives, stage)
    }

    /// The subscription of the pair's present generation.
    pub fn current_sub(&self, consumer: StageNo, producer: StageNo) -> Result<SubNo, AllocError>
        requires { LivesStand self.now.topology.now (history self.now.steps.now) self.now.lives.now }
        ensures { IfOk result (λ sub. sub ≡ current_sub_in self.now.topology.now (history self.now.steps.now) consumer producer) }
    {
        let generation = unit_no(generation(self.lives, consumer, producer)?)?;
        Ok(SubNo {
            consumer,
            producer,
            generation,
        })
    }

    /// Whether the subscription is live: its pair feeds, both stages are live, and its generation is the present one.
    pub fn is_live_sub(&self, sub: SubNo) -> Result<bool, AllocError>
        requires { LivesStand self.now.topology.now (history self.now.steps.now) self.now.lives.now }
        ensures { IfOk result (λ live. live ≡ is_live_sub_in self.now.topology.now (history self.now.steps.now) sub) }
    {
        let current = self.current_sub(sub.consumer, sub.producer)?;
        Ok(
            feeds(self.topology, sub.producer, sub.consumer)
                && (self.is_live(sub.producer)
                    && (self.is_live(sub.consumer) && same_sub(sub, current))),
        )
    }

    /// The live subscriptions on a stage, in order of their numbers.
    pub fn live_subs(&self, alloc: Global, stage: StageNo) -> Result<Vec<SubNo>, AllocError>
        requires { LivesStand self.now.topology.now (history self.now.steps.now) self.now.lives.now }
        ensures { IfOk result (λ subs. subs.items ≡ live_subs_in self.now.topology.now (history self.now.steps.now) stage) }
    {
        let specs = self.topology.stages.as_slice();
        let mut subs = Vec::new(alloc);
        if !self.is_live(stage) {
            return Ok(subs);
        }
        for spec in specs {
            if feeds(self.topology, stage, spec.no) && self.is_live(spec.no) {
                subs.push(self.current_sub(spec.no, stage)?)?;
            }
        }
        Ok(subs)
    }

    /// The stages that the step kills, each with its reason.
    pub fn kill_set(&self, alloc: Global, step: &Step) -> Result<Vec<Death>, AllocError>
        requires { LivesStand self.now.topology.now (history self.now.steps.now) self.now.lives.now }
        ensures { IfOk result (λ set. set.items ≡ kill_set_in self.now.topology.now (history self.now.steps.now) step.now) }
    {
        killed_by(alloc, self.topology, self.lives, step)
    }
}
