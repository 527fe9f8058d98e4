//! The first fault of settings.

ghost use Rattle.std.specs.Prelude.{◌≡◌, IfOk};
ghost use Rattle.config_table.specs.Fault.{least};
ghost use Rattle.config_judge.specs.Judge as judge;

use crate::groups::{bad_dispatch, has_too_many_stages, lacks_stage};
use crate::names::{batcher_names, duplicate_name, producer_names};
use crate::routes::{routes_fault, unreachable_fault};
use config_settings::settings::Settings;
use config_table::fault::{ConfigFault, sooner};
use pipe_types::bytes::Text;
use std::alloc::{AllocError, Global};

/// The first name that stands twice.
#[tactic(auto, using(crate::proofs::Steps::least_pair))]
fn names_fault(
    alloc: Global,
    known: &[Text],
    settings: &Settings,
) -> Result<Option<ConfigFault>, AllocError>
    ensures { IfOk result (λ found. found ≡ least (judge.duplicates_with known.now settings.now)) }
{
    let producers = producer_names(alloc, settings.producers.as_slice())?;
    let batchers = duplicate_name(alloc, "batcher", &[], known)?;
    let producers = duplicate_name(alloc, "producer", known, producers.as_slice())?;
    Ok(sooner(batchers, producers))
}

/// A pipeline of no stages, or of too many.
#[tactic(auto, using(crate::proofs::Steps::least_pair))]
fn group_fault(settings: &Settings) -> Option<ConfigFault>
    ensures { result ≡ least (judge.group_faults settings.now) }
{
    let lacking = if lacks_stage(settings) {
        Some(ConfigFault::NoStage)
    } else {
        None
    };
    let crowded = if has_too_many_stages(settings) {
        Some(ConfigFault::TooManyStages)
    } else {
        None
    };
    sooner(lacking, crowded)
}

/// The fault of the lowest number, 7 to 12, that comes first in the walk of the file. Each is looked for only where none
/// of a lower number stands.
pub fn settings_fault(alloc: Global, settings: &Settings) -> Result<Option<ConfigFault>, AllocError>
    ensures { IfOk result (λ found. found ≡ least (judge.faults_in settings.now)) }
{
    let known = batcher_names(alloc, settings.batchers.as_slice())?;
    if let Some(fault) = names_fault(alloc, known.as_slice(), settings)? {
        return Ok(Some(fault));
    }
    later_fault(alloc, known.as_slice(), settings)
}

/// The fault of the lowest number, 8 to 12, that comes first in the walk of the file.
fn later_fault(
    alloc: Global,
    known: &[Text],
    settings: &Settings,
) -> Result<Option<ConfigFault>, AllocError>
    ensures { IfOk result (λ found. found ≡ least (judge.later_faults known.now settings.now)) }
{
    if let Some(fault) = routes_fault(alloc, known, settings)? {
        return Ok(Some(fault));
    }
    if let Some(fault) = group_fault(settings) {
        return Ok(Some(fault));
    }
    if let Some(fault) = bad_dispatch(alloc, settings.batchers.as_slice())? {
        return Ok(Some(fault));
    }
    unreachable_fault(alloc, known, settings)
}
