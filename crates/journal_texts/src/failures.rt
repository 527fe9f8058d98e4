//! How many messages failed, and why.

ghost use Rattle.std.specs.{Prelude.{◌≡◌, ◌+◌, ◌<◌, ◌^◌, ℕ, List, IfOk, OnOk, option_map}, List.{filter_map}};
ghost use Rattle.journal_texts.specs.{Report.{reason_of as reason_of_place, with_reason}, Failures.{counted, count_in, AreFailures, AddsFailure}};

use core_tables::place_table::PlaceTable;
use std::alloc::{AllocError, Global};
use std::collections::BTreeMap;

/// The messages that failed.
#[derive(Drop)]
pub(crate) struct Failures<'a> {
    /// How many messages failed.
    pub(crate) count: usize,
    /// Each reason, in byte order, with how many messages failed for it.
    pub(crate) reasons: BTreeMap<&'a [u8], u64>,
}

/// How many messages failed for this reason.
fn count_of(reasons: &BTreeMap<&[u8], u64>, reason: &[u8]) -> u64
    ensures { result ≡ count_in reasons.now reason.now }
{
    reasons.get(reason).copied().unwrap_or(0)
}

/// One more message that failed for this reason.
fn count_one<'a>(reasons: &mut BTreeMap<&'a [u8], u64>, reason: &'a [u8]) -> Result<(), AllocError>
    requires room { count_in reasons.old reason.now + 1 < 2 ^ 64 }
    ensures { OnOk result (counted reasons.new ≡ with_reason reason.now (counted reasons.old)) }
{
    let before = count_of(reasons, reason);
    reasons.insert(reason, before + 1)?;
    Ok(())
}

/// Adds a message that failed for the reason, if there is one.
fn add<'a>(failed: &mut Failures<'a>, reason: Option<&'a [u8]>) -> Result<(), AllocError>
    requires count { failed.old.count + 1 < 2 ^ 64 }
    requires room { (text : List ℕ) → count_in failed.old.reasons text + 1 < 2 ^ 64 }
    ensures { OnOk result (AddsFailure (option_map (λ text. text.now) reason.entry) failed.old failed.new) }
{
    if let Some(reason) = reason {
        failed.count += 1;
        count_one(&mut failed.reasons, reason)?;
    }
    Ok(())
}

/// The messages that failed, in memory for each reason once.
pub(crate) fn count_failures(alloc: Global, places: &PlaceTable) -> Result<Failures<'_>, AllocError>
    ensures { IfOk result (AreFailures (filter_map reason_of_place places.now.items)) }
{
    let mut failed = Failures {
        count: 0,
        reasons: BTreeMap::new(alloc),
    };
    for at in 0..places.len() {
        add(&mut failed, places.reason(at))?;
    }
    Ok(failed)
}
