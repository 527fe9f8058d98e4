//! What steps do to legs.

ghost use Rattle.std.specs.Prelude.{◌≡◌, [], IfOk, map};
ghost use Rattle.pipe_model.specs.Batches as model;
ghost use Rattle.pipe_model.specs.{History.{history, incarnation as incarnation_in}, Lives.{reason_in}};
ghost use Rattle.plain_queues.specs.Views.{leg_of, leg_place_of, batch_place_of};
ghost use Rattle.plain_batches.specs.Changes.{change_of};

use pipe_types::message::{Loss, Outcome};
use pipe_types::numbers::{StageNo, SubNo};
use pipe_types::step::Step;
use plain_counts::{incarnation, unit_no};
use plain_lives::{Death, reason};
use plain_queues::{BatchPlace, Leg, LegPlace};
use std::alloc::{AllocError, Global};

/// What a step does to the legs of a batch: a stage takes those in its inbox, answers those at work, or is killed.
#[derive(Clone, Copy)]
pub enum LegChange<'a> {
    Taken(StageNo),
    Answered(StageNo, &'a [Outcome]),
    Killed(&'a [Death], &'a [Step]),
}

fn copy_place(alloc: Global, place: &LegPlace) -> Result<LegPlace, AllocError>
    ensures { IfOk result (λ copied. leg_place_of copied ≡ leg_place_of place.now) }
{
    match place {
        LegPlace::InInbox => Ok(LegPlace::InInbox),
        LegPlace::AtWork => Ok(LegPlace::AtWork),
        LegPlace::Answered(outcomes) => {
            let copied = Vec::from_slice(alloc, outcomes.as_slice())?;
            Ok(LegPlace::Answered(copied))
        }
        LegPlace::LegLost(loss) => Ok(LegPlace::LegLost(*loss)),
    }
}

fn taken(
    alloc: Global,
    stage: StageNo,
    sub: SubNo,
    place: &LegPlace,
) -> Result<LegPlace, AllocError>
    ensures { IfOk result (λ new. leg_place_of new ≡ model.leg_taken stage sub (leg_place_of place.now)) }
{
    match place {
        LegPlace::InInbox if stage.0 == sub.consumer.0 => Ok(LegPlace::AtWork),
        place => copy_place(alloc, place),
    }
}

fn answered(
    alloc: Global,
    stage: StageNo,
    outcomes: &[Outcome],
    sub: SubNo,
    place: &LegPlace,
) -> Result<LegPlace, AllocError>
    ensures { IfOk result (λ new. leg_place_of new ≡ model.leg_answered stage outcomes.now sub (leg_place_of place.now)) }
{
    match place {
        LegPlace::AtWork if stage.0 == sub.consumer.0 => {
            let copied = Vec::from_slice(alloc, outcomes)?;
            Ok(LegPlace::Answered(copied))
        }
        place => copy_place(alloc, place),
    }
}

fn lost(
    alloc: Global,
    set: &[Death],
    steps: &[Step],
    sub: SubNo,
    place: &LegPlace,
) -> Result<LegPlace, AllocError>
    ensures { IfOk result (λ new. leg_place_of new ≡ model.leg_lost (reason_in set.now sub.consumer) (incarnation_in (history steps.now) sub.consumer) sub (leg_place_of place.now)) }
{
    let Some(why) = reason(set, sub.consumer) else {
        return copy_place(alloc, place);
    };
    let from = unit_no(incarnation(steps, sub.consumer)?)?;
    match place {
        LegPlace::InInbox => Ok(LegPlace::LegLost(Loss::Killed(sub.consumer, from, why))),
        LegPlace::AtWork => Ok(LegPlace::LegLost(Loss::Killed(sub.consumer, from, why))),
        place => copy_place(alloc, place),
    }
}

fn leg_after(alloc: Global, change: LegChange<'_>, leg: &Leg) -> Result<Leg, AllocError>
    ensures { IfOk result (λ new. leg_of new ≡ record { sub = leg.now.sub; place = change_of change.entry leg.now.sub (leg_place_of leg.now.place) }) }
{
    let place = match change {
        LegChange::Taken(stage) => taken(alloc, stage, leg.sub, &leg.place)?,
        LegChange::Answered(stage, outcomes) => {
            answered(alloc, stage, outcomes, leg.sub, &leg.place)?
        }
        LegChange::Killed(set, steps) => lost(alloc, set, steps, leg.sub, &leg.place)?,
    };
    Ok(Leg {
        sub: leg.sub,
        place,
    })
}

fn legs_after(alloc: Global, change: LegChange<'_>, legs: &[Leg]) -> Result<Vec<Leg>, AllocError>
    ensures { IfOk result (λ new. map leg_of new.items ≡ model.on_legs (change_of change.entry) (map leg_of legs.now)) }
{
    let mut new = Vec::new(alloc);
    for leg in legs {
        new.push(leg_after(alloc, change, leg)?)?;
    }
    Ok(new)
}

fn new_legs(alloc: Global, subs: &[SubNo]) -> Result<Vec<Leg>, AllocError>
    ensures { IfOk result (λ new. map leg_of new.items ≡ model.new_legs subs.now) }
{
    let mut new = Vec::new(alloc);
    for sub in subs {
        new.push(Leg {
            sub: *sub,
            place: LegPlace::InInbox,
        })?;
    }
    Ok(new)
}

fn copy_legs(alloc: Global, legs: &[Leg]) -> Result<Vec<Leg>, AllocError>
    ensures { IfOk result (λ new. map leg_of new.items ≡ map leg_of legs.now) }
{
    let mut new = Vec::new(alloc);
    for leg in legs {
        let place = copy_place(alloc, &leg.place)?;
        new.push(Leg {
            sub: leg.sub,
            place,
        })?;
    }
    Ok(new)
}

/// A copy of where a batch stands.
pub fn copy_batch_place(alloc: Global, place: &BatchPlace) -> Result<BatchPlace, AllocError>
    ensures { IfOk result (λ new. batch_place_of new ≡ batch_place_of place.now) }
{
    match place {
        BatchPlace::AtBatcher(stage) => Ok(BatchPlace::AtBatcher(*stage)),
        BatchPlace::Sent(legs) => Ok(BatchPlace::Sent(copy_legs(alloc, legs.as_slice())?)),
        BatchPlace::Dropped(loss) => Ok(BatchPlace::Dropped(*loss)),
    }
}

/// A batch that waits in the stage is sent on these subscriptions, or has no leg where it is served alone.
pub fn batch_sent(
    alloc: Global,
    stage: StageNo,
    is_alone: bool,
    subs: &[SubNo],
    place: &BatchPlace,
) -> Result<BatchPlace, AllocError>
    ensures { IfOk result (λ new. batch_place_of new ≡ model.batch_sent stage is_alone subs.now (batch_place_of place.now)) }
{
    if subs.is_empty() {
        return batch_unsent(alloc, stage, is_alone, place);
    }
    match place {
        BatchPlace::AtBatcher(at) if stage.0 == at.0 => {
            Ok(BatchPlace::Sent(new_legs(alloc, subs)?))
        }
        place => copy_batch_place(alloc, place),
    }
}

/// A batch that waits in the stage and is sent on no subscription.
fn batch_unsent(
    alloc: Global,
    stage: StageNo,
    is_alone: bool,
    place: &BatchPlace,
) -> Result<BatchPlace, AllocError>
    ensures { IfOk result (λ new. batch_place_of new ≡ model.batch_sent stage is_alone [] (batch_place_of place.now)) }
{
    match place {
        BatchPlace::AtBatcher(at) if is_alone && stage.0 == at.0 => {
            Ok(BatchPlace::Sent(Vec::new(alloc)))
        }
        place => copy_batch_place(alloc, place),
    }
}

/// What a step does to the legs of a sent batch.
pub fn batch_on_legs(
    alloc: Global,
    change: LegChange<'_>,
    place: &BatchPlace,
) -> Result<BatchPlace, AllocError>
    ensures { IfOk result (λ new. batch_place_of new ≡ model.batch_on_legs (change_of change.entry) (batch_place_of place.now)) }
{
    match place {
        BatchPlace::Sent(legs) => {
            Ok(BatchPlace::Sent(legs_after(alloc, change, legs.as_slice())?))
        }
        place => copy_batch_place(alloc, place),
    }
}

/// A batch that waits in a killed batcher is dropped, and a sent one loses its legs there.
pub fn batch_killed(
    alloc: Global,
    set: &[Death],
    steps: &[Step],
    place: &BatchPlace,
) -> Result<BatchPlace, AllocError>
    ensures { IfOk result (λ new. batch_place_of new ≡ model.batch_killed set.now (incarnation_in (history steps.now)) (batch_place_of place.now)) }
{
    match place {
        BatchPlace::AtBatcher(stage) => dropped_in(*stage, set, steps),
        BatchPlace::Sent(legs) => {
            let change = LegChange::Killed(set, steps);
            Ok(BatchPlace::Sent(legs_after(alloc, change, legs.as_slice())?))
        }
        BatchPlace::Dropped(loss) => Ok(BatchPlace::Dropped(*loss)),
    }
}

fn dropped_in(stage: StageNo, set: &[Death], steps: &[Step]) -> Result<BatchPlace, AllocError>
    ensures { IfOk result (λ new. batch_place_of new ≡ model.dropped_in stage (incarnation_in (history steps.now) stage) (reason_in set.now stage)) }
{
    match reason(set, stage) {
        Some(why) => {
            let from = unit_no(incarnation(steps, stage)?)?;
            Ok(BatchPlace::Dropped(Loss::Killed(stage, from, why)))
        }
        None => Ok(BatchPlace::AtBatcher(stage)),
    }
}
