//! The limits on restarts: the pipeline's, and those of tables that have one of their own.

ghost use Rattle.std.specs.Prelude.{◌≡◌, ◌+◌, ◌<◌, ◌≤◌, ◌^◌, ◌++◌, flat_map, map, IfOk, OnOk};
ghost use Rattle.config_build.specs.Limits as spec;

use config_settings::settings::{
    BatcherSettings, OwnLimit, ProcessorSettings, ProducerSettings, Settings, SupervisorSettings,
};
use pipe_types::topology::{LimitList, RestartLimit};
use std::alloc::{AllocError, Global};

/// Whether the table has one of the two restart keys, so that its stages have a limit of their own.
fn is_own(own: OwnLimit) -> bool
    ensures { result ≡ spec.is_own own }
{
    own.max_restarts.is_some() || own.max_seconds.is_some()
}

/// The place of the limit of a table's stages: this one, or that of the pipeline's.
pub fn limit_place(next: u16, own: OwnLimit) -> u16
    ensures { result ≡ spec.limit_place next own }
{
    if is_own(own) { next } else { 0 }
}

/// The place of the next table's own limit.
pub fn next_place(next: u16, own: OwnLimit) -> u16
    requires { next + 1 < 2 ^ 16 }
    ensures place { result ≡ spec.next_place next own }
    ensures most { result ≤ next + 1 }
{
    if is_own(own) { next + 1 } else { next }
}

fn pipeline_limit(settings: &Settings) -> RestartLimit
    ensures { result ≡ spec.pipeline_limit settings.now }
{
    RestartLimit {
        max_restarts: settings.max_restarts,
        window_ms: u64::from(settings.max_seconds) * 1000,
    }
}

/// A table's own limit, which takes from the pipeline what the table does not give.
fn limit_from(settings: &Settings, own: OwnLimit) -> RestartLimit
    ensures { result ≡ spec.limit_from settings.now own }
{
    RestartLimit {
        max_restarts: own.max_restarts.unwrap_or(settings.max_restarts),
        window_ms: u64::from(own.max_seconds.unwrap_or(settings.max_seconds)) * 1000,
    }
}

fn push_own(
    limits: &mut Vec<RestartLimit>,
    settings: &Settings,
    own: OwnLimit,
) -> Result<(), AllocError>
    ensures { OnOk result (limits.new.items ≡ limits.old.items ++ spec.own_limits settings.now own) }
{
    if is_own(own) {
        limits.push(limit_from(settings, own))?;
    }
    Ok(())
}

#[tactic(auto, using(crate::proofs::Limits::producer_step))]
fn push_of_producers(
    limits: &mut Vec<RestartLimit>,
    settings: &Settings,
    producers: &[ProducerSettings],
) -> Result<(), AllocError>
    ensures { OnOk result (limits.new.items ≡ limits.old.items ++ flat_map (spec.own_limits settings.now) (spec.producer_limits producers.now)) }
{
    for producer in producers {
        push_own(limits, settings, producer.limit)?;
    }
    Ok(())
}

fn push_of_processors(
    limits: &mut Vec<RestartLimit>,
    settings: &Settings,
    processors: &Option<ProcessorSettings>,
) -> Result<(), AllocError>
    ensures { OnOk result (limits.new.items ≡ limits.old.items ++ flat_map (spec.own_limits settings.now) (spec.processor_limits processors.now)) }
{
    match processors {
        None => Ok(()),
        Some(processors) => push_own(limits, settings, processors.limit),
    }
}

fn push_of_supervisor(
    limits: &mut Vec<RestartLimit>,
    settings: &Settings,
    supervisor: &Option<SupervisorSettings>,
) -> Result<(), AllocError>
    ensures { OnOk result (limits.new.items ≡ limits.old.items ++ flat_map (spec.own_limits settings.now) (spec.supervisor_limits supervisor.now)) }
{
    match supervisor {
        None => Ok(()),
        Some(supervisor) => push_own(limits, settings, supervisor.limit),
    }
}

#[tactic(auto, using(crate::proofs::Limits::batcher_step))]
fn push_of_batchers(
    limits: &mut Vec<RestartLimit>,
    settings: &Settings,
    batchers: &[BatcherSettings],
) -> Result<(), AllocError>
    ensures { OnOk result (limits.new.items ≡ limits.old.items ++ flat_map (spec.own_limits settings.now) (spec.batcher_limits batchers.now)) }
{
    for batcher in batchers {
        push_own(limits, settings, batcher.limit)?;
    }
    Ok(())
}

/// The pipeline's limit, and behind it the tables' own in stage order.
pub fn limits_of(alloc: Global, settings: &Settings) -> Result<LimitList, AllocError>
    ensures { IfOk result (λ limits. limits ≡ spec.limits_of settings.now) }
{
    let mut limits = Vec::new(alloc);
    limits.push(pipeline_limit(settings))?;
    push_of_producers(&mut limits, settings, settings.producers.as_slice())?;
    push_of_processors(&mut limits, settings, &settings.processors)?;
    push_of_supervisor(&mut limits, settings, &settings.supervisor)?;
    push_of_batchers(&mut limits, settings, settings.batchers.as_slice())?;
    Ok(LimitList::from_vec(limits))
}
