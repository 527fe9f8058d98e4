//! What the steps of a run come to.

ghost use Rattle.std.specs.Prelude.{◌≡◌, ◌<◌, ◌^◌, length, cond, count_by};
ghost use Rattle.journal_audit.specs.{Counts.{is_among}, Verdicts.{summary_of}};

use crate::verdict::Summary;
use core_tables::place_table::PlaceTable;
use journal_reading::PlainRun;
use pipe_types::message::{Outcome, Place};

/// Which messages are counted.
#[derive(Clone, Copy)]
enum Counted {
    Successful,
    Failed,
    Lost,
}

/// Whether the message that stands so is counted.
fn is_counted(which: Counted, place: &Place) -> bool
    ensures { result ≡ is_among which place.now }
{
    match which {
        Counted::Successful => matches!(place, Place::Acked(Outcome::Successful)),
        Counted::Failed => matches!(place, Place::Acked(Outcome::Failed(_))),
        Counted::Lost => matches!(place, Place::Lost(_)),
    }
}

/// 1 where it is so, and else 0.
fn one_if(is: bool) -> u32
    ensures { result ≡ cond is 1 0 }
{
    if is { 1 } else { 0 }
}

/// How many messages are counted.
fn count(places: &PlaceTable, which: Counted) -> u32
    requires few { length places.now.items < 2 ^ 32 }
    ensures { result ≡ count_by (is_among which) places.now.items }
{
    let mut count = 0;
    for at in 0..places.len() {
        count += one_if(is_counted(which, &places.read(at)));
    }
    count
}

/// What the steps of the run come to.
pub(crate) fn summary(run: &PlainRun) -> Summary
    ensures { result ≡ summary_of run.now.topology run.now.steps }
{
    let places = run.places();
    let accepted = run.accepted();
    Summary {
        steps: run.journal().len(),
        accepted,
        successful: count(places, Counted::Successful),
        failed: count(places, Counted::Failed),
        lost: count(places, Counted::Lost),
        drained: run.is_drained(),
        halted: run.has_halted(),
    }
}
