//! How many stages there are, and of which groups.

ghost use Rattle.std.specs.Prelude.{◌≡◌, ◌-◌, ◌^◌, min, nat_lt, IfOk};
ghost use Rattle.config_table.specs.Fault.{least};
ghost use Rattle.config_judge.specs.Judge as judge;

use config_settings::settings::{BatcherSettings, Settings};
use config_table::fault::{ConfigFault, at_place, sooner, under};
use pipe_types::topology::Dispatch;
use std::alloc::{AllocError, Global};

/// Whether there is no producer, neither processors nor a supervisor, both, or a supervisor beside a batcher.
pub fn lacks_stage(settings: &Settings) -> bool
    ensures { result ≡ judge.lacks_stage settings.now }
{
    let no_producer = settings.producers.as_slice().is_empty();
    let no_batcher = settings.batchers.as_slice().is_empty();
    let processors = settings.processors.is_some();
    let supervisor = settings.supervisor.is_some();
    no_producer || !processors && !supervisor || supervisor && (processors || !no_batcher)
}

fn batch_processor_count(batchers: &[BatcherSettings]) -> u64
    ensures { result ≡ min (judge.batch_processor_count batchers.now) (2 ^ 64 - 1) }
{
    let mut count: u64 = 0;
    for batcher in batchers {
        count = count.saturating_add(u64::from(batcher.concurrency));
    }
    count
}

fn processor_count(settings: &Settings) -> u64
    ensures { result ≡ judge.processor_count settings.now.processors }
{
    match &settings.processors {
        None => 0,
        Some(processors) => u64::from(processors.concurrency),
    }
}

fn supervisor_count(settings: &Settings) -> u64
    ensures { result ≡ judge.supervisor_count settings.now.supervisor }
{
    if settings.supervisor.is_some() { 1 } else { 0 }
}

/// Whether there are more than 64 stages.
pub fn has_too_many_stages(settings: &Settings) -> bool
    ensures { result ≡ nat_lt 64 (judge.stage_count settings.now) }
{
    let batchers = settings.batchers.as_slice();
    let count = (settings.producers.as_slice().len() as u64)
        .saturating_add(processor_count(settings))
        .saturating_add(supervisor_count(settings))
        .saturating_add(batchers.len() as u64)
        .saturating_add(batch_processor_count(batchers));
    count > 64
}

fn dispatch_fault(
    alloc: Global,
    place: usize,
    dispatch: Option<Dispatch>,
) -> Result<Option<ConfigFault>, AllocError>
    ensures { IfOk result (λ found. found ≡ least (judge.dispatch_faults place dispatch)) }
{
    if dispatch.is_some() {
        return Ok(None);
    }
    let path = at_place(alloc, "batcher", place)?;
    Ok(Some(ConfigFault::BadDispatch(under(alloc, path.as_str(), "dispatch")?)))
}

/// The first dispatcher of another word.
pub fn bad_dispatch(
    alloc: Global,
    batchers: &[BatcherSettings],
) -> Result<Option<ConfigFault>, AllocError>
    ensures { IfOk result (λ found. found ≡ least (judge.bad_dispatches 0 batchers.now)) }
{
    let mut found = None;
    for (i, batcher) in batchers.iter().enumerate() {
        let fault = dispatch_fault(alloc, i, batcher.dispatch)?;
        found = sooner(found, fault);
    }
    Ok(found)
}
