//! The names of producers and batchers.

ghost use Rattle.std.specs.Prelude.{◌≡◌, ◌||◌, ℕ, List, bytes_eq, IfOk, OnOk};
ghost use Rattle.config_table.specs.Fault.{least};
ghost use Rattle.config_judge.specs.Judge as judge;
ghost use Rattle.config_judge.specs.Stood.{stands};

use config_settings::settings::{BatcherSettings, ProducerSettings};
use config_table::fault::{ConfigFault, at_place, copied, sooner, under};
use pipe_types::bytes::Text;
use std::alloc::{AllocError, Global};
use std::collections::BTreeMap;

/// The batchers' names, in the order of the file.
pub fn batcher_names(alloc: Global, batchers: &[BatcherSettings]) -> Result<Vec<Text>, AllocError>
    ensures { IfOk result (λ names. names.items ≡ judge.batcher_names batchers.now) }
{
    let mut names = Vec::new(alloc);
    for batcher in batchers {
        names.push(copied(alloc, batcher.name.as_str())?)?;
    }
    Ok(names)
}

/// The producers' names, in the order of the file.
pub fn producer_names(
    alloc: Global,
    producers: &[ProducerSettings],
) -> Result<Vec<Text>, AllocError>
    ensures { IfOk result (λ names. names.items ≡ judge.producer_names producers.now) }
{
    let mut names = Vec::new(alloc);
    for producer in producers {
        names.push(copied(alloc, producer.name.as_str())?)?;
    }
    Ok(names)
}

/// Whether the name is one of those that stood before, to which it then belongs.
#[tactic(auto, using(crate::proofs::Stood::stands_more))]
fn stood_before<'a>(stood: &mut BTreeMap<&'a str, ()>, name: &'a str) -> Result<bool, AllocError>
    ensures known { IfOk result (λ known. known ≡ stands stood.old name.now) }
    ensures added { OnOk result ((other : List ℕ) → stands stood.new other ≡ (bytes_eq name.now other || stands stood.old other)) }
{
    let known = stood.insert(name, ())?;
    Ok(known.is_some())
}

/// The names as a set.
fn set_of<'a>(alloc: Global, names: &'a [Text]) -> Result<BTreeMap<&'a str, ()>, AllocError>
    ensures { IfOk result (λ stood. (name : List ℕ) → stands stood name ≡ judge.is_in name names.now) }
{
    let mut stood = BTreeMap::new(alloc);
    for name in names {
        let _ = stood_before(&mut stood, name.as_str())?;
    }
    Ok(stood)
}

/// The name at this place, if it stood before.
fn name_fault(
    alloc: Global,
    path: &str,
    place: usize,
    stood_before: bool,
) -> Result<Option<ConfigFault>, AllocError>
    ensures { IfOk result (λ found. found ≡ least (judge.name_faults path.now place stood_before)) }
{
    if !stood_before {
        return Ok(None);
    }
    let path = at_place(alloc, path, place)?;
    Ok(Some(ConfigFault::DuplicateName(under(alloc, path.as_str(), "name")?)))
}

/// The first name that stood before.
pub fn duplicate_name(
    alloc: Global,
    path: &str,
    before: &[Text],
    names: &[Text],
) -> Result<Option<ConfigFault>, AllocError>
    ensures { IfOk result (λ found. found ≡ least (judge.duplicate_names path.now before.now 0 names.now)) }
{
    let mut stood = set_of(alloc, before)?;
    let mut found = None;
    for (i, name) in names.iter().enumerate() {
        let known = stood_before(&mut stood, name.as_str())?;
        let fault = name_fault(alloc, path, i, known)?;
        found = sooner(found, fault);
    }
    Ok(found)
}
