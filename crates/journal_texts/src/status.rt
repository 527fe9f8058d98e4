//! The status of a run.

ghost use Rattle.std.specs.{Prelude.{◌≡◌, ◌||◌}, List.{list_any}};
ghost use Rattle.pipe_model.specs.Legal.{happened, is_halt as is_halt_step};
ghost use Rattle.pipe_journal.specs.Views.{step_seen};
ghost use Rattle.journal_texts.specs.Report.{places as places_of, is_fault as is_fault_how, is_source_fault as is_source_fault_step, is_lost as is_lost_place, is_failed as is_failed_place, gravest_of, status_of};

use crate::steps::halts_by;
use core_tables::place_table::PlaceTable;
use pipe_journal::{AnswerView, Journal, StepView};
use pipe_types::message::{Outcome, Place};
use pipe_types::step::SourceHow;
use pipe_types::topology::Topology;

fn is_fault(how: SourceHow) -> bool
    ensures { result ≡ is_fault_how how }
{
    matches!(how, SourceHow::Fault | SourceHow::TooLong)
}

fn is_source_fault(step: StepView<'_>) -> bool
    ensures { result ≡ is_source_fault_step (step_seen step.entry) }
{
    match step {
        StepView::SourceEnd { how, .. } => is_fault(how),
        StepView::Late {
            answer: AnswerView::Source(how),
            ..
        } => is_fault(how),
        _ => false,
    }
}

/// Whether a source failed up to the step, given whether one failed before it.
fn fails_by(failed: bool, step: StepView<'_>) -> bool
    ensures { result ≡ (failed || is_source_fault_step (step_seen step.entry)) }
{
    failed || is_source_fault(step)
}

/// Whether a source ended with a fault or with a line that is too long, and whether the run was halted.
fn bad_ends(journal: &Journal) -> (bool, bool)
    ensures source_fault { result.0 ≡ happened is_source_fault_step journal.now.steps }
    ensures halted { result.1 ≡ happened is_halt_step journal.now.steps }
{
    let mut source_fault = false;
    let mut halted = false;
    for at in 0..journal.len() {
        let step = journal.view(at);
        source_fault = fails_by(source_fault, step);
        halted = halts_by(halted, step);
    }
    (source_fault, halted)
}

fn is_lost(place: &Place) -> bool
    ensures { result ≡ is_lost_place place.now }
{
    matches!(place, Place::Lost(_))
}

fn is_failed(place: &Place) -> bool
    ensures { result ≡ is_failed_place place.now }
{
    matches!(place, Place::Acked(Outcome::Failed(_)))
}

fn any_lost(places: &PlaceTable) -> bool
    ensures { result ≡ list_any is_lost_place places.now.items }
{
    for at in 0..places.len() {
        if is_lost(&places.read(at)) {
            return true;
        }
    }
    false
}

fn any_failed(places: &PlaceTable) -> bool
    ensures { result ≡ list_any is_failed_place places.now.items }
{
    for at in 0..places.len() {
        if is_failed(&places.read(at)) {
            return true;
        }
    }
    false
}

/// The status of the four findings, the gravest first.
fn gravest(source_fault: bool, halted: bool, lost: bool, failed: bool) -> u8
    ensures { result ≡ gravest_of source_fault halted lost failed }
{
    if source_fault {
        return 4;
    }
    if halted {
        return 3;
    }
    if lost {
        return 2;
    }
    if failed { 1 } else { 0 }
}

/// The status of a run that ended: 4 where a source ended with a fault or with too long a line, else 3 where the run was
/// halted, else 2 where a message was lost, else 1 where one failed, else 0. `places` are the places of the accepted
/// messages, in order of their numbers.
pub fn status(_topology: &Topology, journal: &Journal, places: &PlaceTable) -> u8
    requires { places.now.items ≡ places_of _topology.now journal.now.steps }
    ensures { result ≡ status_of _topology.now journal.now.steps }
{
    let (source_fault, halted) = bad_ends(journal);
    let lost = any_lost(places);
    let failed = any_failed(places);
    gravest(source_fault, halted, lost, failed)
}
