//! How the messages of a batch end that is settled.

ghost use Rattle.std.specs.{Prelude.{◌≡◌, ◌≢◌, ℕ, suc, ◌+◌, ◌++◌, ◌≤◌, ◌<◌, length, All, slice_get, option_map, option_copied, unwrap_or, vec_capacity, ◌∷◌, []}, List.{AllPairs, filter_map, cons_option}};
ghost use Rattle.pipe_types.specs.declared.message.Outcome.TheVariants.{Successful};
ghost use Rattle.core_laws.specs.Acked.{ack_row};
ghost use Rattle.core_state.specs.Settles.{end_at, ended_from, marked, noted};

use core_tables::place_table::PlaceTable;
use message_ack::Settled;
use pipe_journal::{AckRow, Journal};
use pipe_types::message::{Outcome, OutcomeList, Place};
use pipe_types::numbers::{MsgNo, StageNo};

/// Notes how each message of the batch ended.
pub fn settle_all(places: &mut PlaceTable, numbers: &[u32], settled: &Settled)
    requires within { All (λ n. (1 ≤ n) × (n ≤ length places.old.items)) numbers.now }
    requires apart { AllPairs (λ a b. a ≢ b) numbers.now }
    ensures len { length places.new.items ≡ length places.old.items }
    ensures capacity { vec_capacity places.new ≡ vec_capacity places.old }
    ensures placed { (i : ℕ) → slice_get places.new.items i ≡ option_map (ended_from (end_at settled.now) 0 numbers.now (suc i)) (slice_get places.old.items i) }
{
    for k in 0..numbers.len() {
        let at = (numbers[k] - 1) as usize;
        places.write(at, end_of(settled, k));
    }
}

/// Where the batch leaves the message at that place of it.
fn end_of(settled: &Settled, at: usize) -> Place
    ensures { result ≡ end_at settled.now at }
{
    match settled {
        Settled::Outcomes(outcomes) => Place::Acked(outcome_at(outcomes, at)),
        Settled::Lost(loss) => Place::Lost(*loss),
    }
}

/// The outcome at that place, and a success past the end.
fn outcome_at(outcomes: &OutcomeList, at: usize) -> Outcome
    ensures { result ≡ unwrap_or (slice_get outcomes.now at) Successful }
{
    outcomes
        .as_slice()
        .get(at)
        .copied()
        .unwrap_or(Outcome::Successful)
}

/// Notes the step that settled each message of the batch.
pub fn mark_all(marks: &mut Vec<u64>, numbers: &[u32], mark: u64)
    requires within { All (λ n. (1 ≤ n) × (n ≤ length marks.old.items)) numbers.now }
    ensures len { length marks.new.items ≡ length marks.old.items }
    ensures capacity { vec_capacity marks.new ≡ vec_capacity marks.old }
    ensures marked { (i : ℕ) → slice_get marks.new.items i ≡ option_map (marked numbers.now mark (suc i)) (slice_get marks.old.items i) }
{
    for no in numbers {
        let at = (*no - 1) as usize;
        marks[at] = mark;
    }
}

/// Notes those of these messages that are acknowledged in the journal's log, as by the step at that place.
pub fn note_acked(
    journal: &mut Journal,
    places: &PlaceTable,
    producers: &[StageNo],
    numbers: &[u32],
    at: u64,
)
    requires least { All (λ n. 1 ≤ n) numbers.now }
    requires room { length journal.old.acked.rows + length numbers.now ≤ journal.old.acked.room }
    ensures noted { journal.new.acked.rows ≡ journal.old.acked.rows ++ filter_map (noted places.now.items producers.now at) numbers.now }
    ensures same_room { journal.new.acked.room ≡ journal.old.acked.room }
    ensures same_steps { journal.new.steps ≡ journal.old.steps }
    ensures same_spare { journal.new.spare ≡ journal.old.spare }
{
    for no in numbers {
        note_one(journal, places, producers, *no, at);
    }
}

/// Notes the message in the journal's log, where it is acknowledged, as by the step at that place.
pub fn note_one(journal: &mut Journal, places: &PlaceTable, producers: &[StageNo], no: u32, at: u64)
    requires least { 1 ≤ no }
    requires room { length journal.old.acked.rows < journal.old.acked.room }
    ensures noted { journal.new.acked.rows ≡ journal.old.acked.rows ++ filter_map (noted places.now.items producers.now at) (no ∷ []) }
    ensures same_room { journal.new.acked.room ≡ journal.old.acked.room }
    ensures same_steps { journal.new.steps ≡ journal.old.steps }
    ensures same_spare { journal.new.spare ≡ journal.old.spare }
{
    let others = no as usize - 1;
    let place = places.get(others);
    note_row(journal, place.as_ref(), producers.get(others), no, at);
}

/// Notes the message that stands so in the journal's log, where it is acknowledged.
pub fn note_row(
    journal: &mut Journal,
    place: Option<&Place>,
    producer: Option<&StageNo>,
    no: u32,
    at: u64,
)
    requires { length journal.old.acked.rows < journal.old.acked.room }
    ensures noted { journal.new.acked.rows ≡ journal.old.acked.rows ++ cons_option (ack_row (option_copied place.entry) (option_copied producer.entry) at no) [] }
    ensures same_room { journal.new.acked.room ≡ journal.old.acked.room }
    ensures same_steps { journal.new.steps ≡ journal.old.steps }
    ensures same_spare { journal.new.spare ≡ journal.old.spare }
{
    if let Some(row) = row_of(place, producer, no, at) {
        journal.note_acked(row);
    }
}

/// The row of the message that stands so, where it is acknowledged.
fn row_of(place: Option<&Place>, producer: Option<&StageNo>, no: u32, at: u64) -> Option<AckRow>
    ensures { result ≡ ack_row (option_copied place.entry) (option_copied producer.entry) at no }
{
    match place? {
        Place::Acked(outcome) => Some(AckRow {
            no: MsgNo(no),
            producer: *producer?,
            successful: matches!(outcome, Outcome::Successful),
            at,
        }),
        _ => None,
    }
}
