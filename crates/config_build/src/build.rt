//! The stages of a topology in their order.

ghost use Rattle.std.specs.{Prelude.{◌≡◌, ◌+◌, ◌<◌, ◌≤◌, ◌^◌, ◌++◌, length, map, IfOk, OnOk}, Option.{ForSome}};
ghost use Rattle.config_judge.specs.Judge as judge;
ghost use Rattle.config_build.specs.Build as build;
ghost use Rattle.config_build.specs.Limits as limits;

use crate::limit::{limit_place, limits_of, next_place};
use crate::stage::{
    batch_processor_stage, batcher_stage, processor_stage, producer_stage, supervisor_stage,
};
use config_judge::names::batcher_names;
use config_settings::settings::{
    BatcherSettings, ProcessorSettings, ProducerSettings, Settings, SupervisorSettings,
};
use config_table::fault::copied;
use pipe_types::bytes::Text;
use pipe_types::topology::{StageList, StageSpec, Topology};
use std::alloc::{AllocError, Global};

/// Pushes the producers, whose limits stand from this place on, and answers the place behind these.
fn push_producers(
    alloc: Global,
    stages: &mut Vec<StageSpec>,
    field: Option<u32>,
    parts: u32,
    next: u16,
    producers: &[ProducerSettings],
) -> Result<u16, AllocError>
    requires few { length producers.now ≤ 64 }
    requires field { ForSome field (λ n. n < 2 ^ 16) }
    requires next { next ≤ 64 }
    ensures stages { OnOk result (stages.new.items ≡ stages.old.items ++ build.producer_stages field parts next 0 producers.now) }
    ensures next { IfOk result (λ behind. behind ≡ limits.places_after next (limits.producer_limits producers.now)) }
    ensures most { IfOk result (λ behind. behind ≤ next + length producers.now) }
{
    let mut next = next;
    for (i, producer) in producers.iter().enumerate() {
        let limit = limit_place(next, producer.limit);
        stages.push(producer_stage(alloc, field, parts, limit, i as u16, producer)?)?;
        next = next_place(next, producer.limit);
    }
    Ok(next)
}

#[tactic(auto, using(crate::proofs::Stages::place_step))]
fn push_processors(
    alloc: Global,
    stages: &mut Vec<StageSpec>,
    known: &[Text],
    before: u16,
    limit: u16,
    processors: &ProcessorSettings,
) -> Result<(), AllocError>
    requires before { before ≤ 64 }
    requires few { processors.now.concurrency ≤ 64 }
    requires known { length known.now ≤ 64 }
    ensures { OnOk result (stages.new.items ≡ stages.old.items ++ map (build.processor_stage known.now processors.now before limit) (build.places 0 processors.now.concurrency)) }
{
    let count = processors.concurrency;
    for i in 0..count {
        stages.push(processor_stage(alloc, known, processors, before, limit, i as u16)?)?;
    }
    Ok(())
}

fn push_processor_group(
    alloc: Global,
    stages: &mut Vec<StageSpec>,
    known: &[Text],
    before: u16,
    next: u16,
    processors: &Option<ProcessorSettings>,
) -> Result<(), AllocError>
    requires before { before ≤ 64 }
    requires few { judge.processor_count processors.now ≤ 64 }
    requires known { length known.now ≤ 64 }
    ensures { OnOk result (stages.new.items ≡ stages.old.items ++ build.processor_stages known.now before next processors.now) }
{
    match processors {
        None => Ok(()),
        Some(processors) => {
            let limit = limit_place(next, processors.limit);
            push_processors(alloc, stages, known, before, limit, processors)
        }
    }
}

fn push_supervisor(
    alloc: Global,
    stages: &mut Vec<StageSpec>,
    before: u16,
    next: u16,
    supervisor: &Option<SupervisorSettings>,
) -> Result<(), AllocError>
    requires { before ≤ 64 }
    ensures { OnOk result (stages.new.items ≡ stages.old.items ++ build.supervisor_stages before next supervisor.now) }
{
    if let Some(supervisor) = supervisor {
        let limit = limit_place(next, supervisor.limit);
        stages.push(supervisor_stage(alloc, before, limit, supervisor)?)?;
    }
    Ok(())
}

fn push_batchers(
    alloc: Global,
    stages: &mut Vec<StageSpec>,
    before: u16,
    next: u16,
    batchers: &[BatcherSettings],
) -> Result<(), AllocError>
    requires before { before ≤ 128 }
    requires few { length batchers.now ≤ 64 }
    requires next { next ≤ 256 }
    ensures { OnOk result (stages.new.items ≡ stages.old.items ++ build.batcher_stages before next 0 batchers.now) }
{
    let mut next = next;
    for (i, batcher) in batchers.iter().enumerate() {
        let limit = limit_place(next, batcher.limit);
        stages.push(batcher_stage(alloc, before, limit, i as u16, batcher)?)?;
        next = next_place(next, batcher.limit);
    }
    Ok(())
}

#[tactic(auto, using(crate::proofs::Stages::place_step))]
fn push_batch_processors(
    alloc: Global,
    stages: &mut Vec<StageSpec>,
    before: u16,
    limit: u16,
    number: u16,
    batcher: &BatcherSettings,
) -> Result<(), AllocError>
    requires before { before ≤ 256 }
    requires few { batcher.now.concurrency ≤ 64 }
    ensures { OnOk result (stages.new.items ≡ stages.old.items ++ map (build.batch_processor_stage number batcher.now before limit) (build.places 0 batcher.now.concurrency)) }
{
    let count = batcher.concurrency;
    for i in 0..count {
        stages.push(batch_processor_stage(alloc, number, batcher, before, limit, i as u16)?)?;
    }
    Ok(())
}

/// Pushes the batch processors, each with the limit of its batcher.
#[tactic(auto, using(crate::proofs::Stages::group_step))]
fn push_batch_processor_groups(
    alloc: Global,
    stages: &mut Vec<StageSpec>,
    before: u16,
    next: u16,
    batchers: &[BatcherSettings],
) -> Result<(), AllocError>
    requires before { before ≤ 192 }
    requires few { length batchers.now ≤ 64 }
    requires members { judge.batch_processor_count batchers.now ≤ 64 }
    requires next { next ≤ 256 }
    ensures { OnOk result (stages.new.items ≡ stages.old.items ++ build.batch_processor_stages before next 0 batchers.now) }
{
    let mut before = before;
    let mut next = next;
    for (i, batcher) in batchers.iter().enumerate() {
        let limit = limit_place(next, batcher.limit);
        push_batch_processors(alloc, stages, before, limit, i as u16, batcher)?;
        before += batcher.concurrency as u16;
        next = next_place(next, batcher.limit);
    }
    Ok(())
}

/// The place of the limits behind that of processors.
fn behind_processors(next: u16, processors: &Option<ProcessorSettings>) -> u16
    requires { next ≤ 128 }
    ensures place { result ≡ limits.places_after next (limits.processor_limits processors.now) }
    ensures most { result ≤ next + 1 }
{
    match processors {
        None => next,
        Some(processors) => next_place(next, processors.limit),
    }
}

/// The place of the limits behind that of a supervisor.
fn behind_supervisor(next: u16, supervisor: &Option<SupervisorSettings>) -> u16
    requires { next ≤ 129 }
    ensures place { result ≡ limits.places_after next (limits.supervisor_limits supervisor.now) }
    ensures most { result ≤ next + 1 }
{
    match supervisor {
        None => next,
        Some(supervisor) => next_place(next, supervisor.limit),
    }
}

fn processor_count(processors: &Option<ProcessorSettings>) -> u32
    ensures { result ≡ judge.processor_count processors.now }
{
    match processors {
        None => 0,
        Some(processors) => processors.concurrency,
    }
}

fn partition_field(processors: &Option<ProcessorSettings>) -> Option<u32>
    ensures { result ≡ build.partition_field processors.now }
{
    match processors {
        None => None,
        Some(processors) => processors.partition_by,
    }
}

fn supervisor_count(supervisor: &Option<SupervisorSettings>) -> u32
    ensures { result ≡ judge.supervisor_count supervisor.now }
{
    if supervisor.is_some() { 1 } else { 0 }
}

/// The stages in number order.
fn stages_of(alloc: Global, settings: &Settings) -> Result<StageList, AllocError>
    requires few { judge.stage_count settings.now ≤ 64 }
    requires field { ForSome (build.partition_field settings.now.processors) (λ n. n < 2 ^ 16) }
    ensures { IfOk result (λ stages. stages ≡ build.stages_of settings.now) }
{
    let producers = settings.producers.as_slice();
    let batchers = settings.batchers.as_slice();
    let known = batcher_names(alloc, batchers)?;
    let count = processor_count(&settings.processors);
    let first = producers.len() as u16;
    let second = first + count as u16 + supervisor_count(&settings.supervisor) as u16;
    let third = second + batchers.len() as u16;
    let field = partition_field(&settings.processors);
    let mut stages = Vec::new(alloc);
    let second_limit = push_producers(alloc, &mut stages, field, count, 1, producers)?;
    let third_limit = behind_processors(second_limit, &settings.processors);
    let fourth_limit = behind_supervisor(third_limit, &settings.supervisor);
    push_processor_group(
        alloc,
        &mut stages,
        known.as_slice(),
        first,
        second_limit,
        &settings.processors,
    )?;
    push_supervisor(alloc, &mut stages, first, third_limit, &settings.supervisor)?;
    push_batchers(alloc, &mut stages, second, fourth_limit, batchers)?;
    push_batch_processor_groups(alloc, &mut stages, third, fourth_limit, batchers)?;
    Ok(StageList::from_vec(stages))
}

fn copy_of(alloc: Global, text: &Option<Text>) -> Result<Option<Text>, AllocError>
    ensures { IfOk result (λ copy. copy ≡ text.now) }
{
    Ok(match text {
        Some(text) => Some(copied(alloc, text.as_str())?),
        None => None,
    })
}

/// The topology of settings of at most 64 stages.
pub fn build_topology(alloc: Global, settings: &Settings) -> Result<Topology, AllocError>
    requires few { judge.stage_count settings.now ≤ 64 }
    requires field { ForSome (build.partition_field settings.now.processors) (λ n. n < 2 ^ 16) }
    ensures { IfOk result (λ topology. topology ≡ build.topology_in settings.now) }
{
    let stages = stages_of(alloc, settings)?;
    let limits = limits_of(alloc, settings)?;
    let control = copy_of(alloc, &settings.control)?;
    Ok(Topology {
        stages,
        limits,
        idle_limit: settings.idle_limit,
        record_limit: settings.record_limit,
        byte_limit: u64::from(settings.byte_limit),
        control,
        rate: settings.rate,
    })
}
