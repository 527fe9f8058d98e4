//! The stages that a step kills.

ghost use Rattle.std.specs.Prelude.{◌≡◌, ◌++◌, IfOk, option_copied};
ghost use Rattle.pipe_model.specs.Lives.{killed_feeder as killed_feeder_in, cancelled as cancelled_in, cascade_at as cascade_at_in, cascade as cascade_in, all_live as all_live_in, killed_by as killed_by_in};
ghost use Rattle.plain_lives.specs.Lives.{generation_by, live_by, one_death};

use crate::deaths::{Death, Lives, exits, generation, is_live, reason};
use pipe_types::message::Why;
use pipe_types::numbers::{StageNo, SubNo};
use pipe_types::step::Step;
use pipe_types::topology::{StageSpec, Topology, feeds};
use plain_counts::unit_no;
use std::alloc::{AllocError, Global};

/// The least live stage of the set that feeds the consumer.
fn killed_feeder<'a>(
    topology: &'a Topology,
    lives: &Lives,
    set: &[Death],
    consumer: StageNo,
) -> Option<&'a StageSpec>
    ensures { option_copied result ≡ killed_feeder_in topology.now (live_by topology.now lives.now) set.now consumer }
{
    let specs = topology.stages.as_slice();
    for spec in specs {
        let kills = reason(set, spec.no).is_some()
            && (is_live(topology, lives, spec.no) && feeds(topology, spec.no, consumer));
        if kills {
            return Some(spec);
        }
    }
    None
}

/// The consumer's death by its subscription on the stage.
fn cancelled(
    lives: &Lives,
    consumer: StageNo,
    feeder: Option<&StageSpec>,
) -> Result<Option<Death>, AllocError>
    ensures { IfOk result (λ death. one_death death ≡ cancelled_in (generation_by lives.now.renewals.items) consumer (option_copied feeder.entry)) }
{
    match feeder {
        None => Ok(None),
        Some(spec) => {
            let sub = SubNo {
                consumer,
                producer: spec.no,
                generation: unit_no(generation(lives, consumer, spec.no)?)?,
            };
            Ok(Some(Death::new(consumer, Why::Cancelled(sub))))
        }
    }
}

/// What the cascade adds at one stage.
fn cascade_at(
    topology: &Topology,
    lives: &Lives,
    why: Why,
    spec: &StageSpec,
    set: &[Death],
) -> Result<Option<Death>, AllocError>
    ensures { IfOk result (λ death. one_death death ≡ cascade_at_in topology.now (live_by topology.now lives.now) (generation_by lives.now.renewals.items) why spec.now set.now) }
{
    if is_live(topology, lives, spec.no) && exits(spec.mode, why) {
        cancelled(lives, spec.no, killed_feeder(topology, lives, set, spec.no))
    } else {
        Ok(None)
    }
}

fn with_death(set: Vec<Death>, death: Option<Death>) -> Result<Vec<Death>, AllocError>
    ensures { IfOk result (λ more. more.items ≡ set.items ++ one_death death) }
{
    let mut more = set;
    if let Some(death) = death {
        more.push(death)?;
    }
    Ok(more)
}

/// The set and what the cascade adds to it, stage by stage in number order.
fn cascade(
    topology: &Topology,
    lives: &Lives,
    why: Why,
    start: Vec<Death>,
) -> Result<Vec<Death>, AllocError>
    ensures { IfOk result (λ set. set.items ≡ cascade_in topology.now (live_by topology.now lives.now) (generation_by lives.now.renewals.items) why topology.now.stages start.items) }
{
    let specs = topology.stages.as_slice();
    let mut set = start;
    for spec in specs {
        let death = cascade_at(topology, lives, why, spec, set.as_slice())?;
        set = with_death(set, death)?;
    }
    Ok(set)
}

/// Every live stage, by the limit.
fn all_live(alloc: Global, topology: &Topology, lives: &Lives) -> Result<Vec<Death>, AllocError>
    ensures { IfOk result (λ set. set.items ≡ all_live_in (live_by topology.now lives.now) topology.now.stages) }
{
    let specs = topology.stages.as_slice();
    let mut set = Vec::new(alloc);
    for spec in specs {
        if is_live(topology, lives, spec.no) {
            set.push(Death::new(spec.no, Why::Limit))?;
        }
    }
    Ok(set)
}

/// The stages that the step kills, each with its reason.
pub fn killed_by(
    alloc: Global,
    topology: &Topology,
    lives: &Lives,
    step: &Step,
) -> Result<Vec<Death>, AllocError>
    ensures { IfOk result (λ set. set.items ≡ killed_by_in topology.now (live_by topology.now lives.now) (generation_by lives.now.renewals.items) step.now) }
{
    match step {
        Step::Kill { stage, why } => {
            let first = Vec::from_slice(alloc, &[Death::new(*stage, *why)])?;
            cascade(topology, lives, *why, first)
        }
        Step::Halt => all_live(alloc, topology, lives),
        _ => Ok(Vec::new(alloc)),
    }
}
