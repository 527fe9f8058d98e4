//! Fetches, and what a source answers to them.

ghost use Rattle.std.specs.{Prelude.{◌≡◌, ◌-◌, ◌&&◌, ◌==◌, IfOk, not, Some, min, length, nat_le, nat_lt}, List.{list_all}};
ghost use Rattle.pipe_types.specs.{Numbers.{post as post_in}, Lines.{max_bytes}};
ghost use Rattle.pipe_model.specs.{History.{history, accepted as accepted_in, accepted_bytes as accepted_bytes_in, controls as controls_in}, Posts.{is_out as is_out_in}};
ghost use Rattle.pipe_model.specs.Legal.{may_come, has_ended as has_ended_in, rests as rests_in, happened, is_drain, fetches_out as fetches_out_in, pull_bound as pull_bound_in, bound as bound_in, are_records as are_records_in, is_limit as is_limit_in, same_truth, may_end as may_end_in};
ghost use Rattle.plain_lives.specs.Lives.{LivesStand};
ghost use Rattle.plain_queues.specs.Flows.{topology_of, history_of};
ghost use Rattle.plain_places.specs.Standing.{TablesStand};

use pipe_types::bytes::Bytes;
use pipe_types::numbers::{Post, StageNo};
use pipe_types::step::{SourceHow, Step};
use pipe_types::topology::StageSpec;
use plain_counts::{
    accepted, accepted_bytes, controls, fetch_out, fetches_out, has_drained, has_ended, is_current,
    is_out, is_producer, rests,
};
use plain_lives::Past;
use plain_places::{room_now, waiting_now};
use plain_queues::Flow;
use std::alloc::AllocError;

/// The most bytes of a record.
const MAX_BYTES: usize = 65536;

/// The most records of a fetch.
const MAX_RECORDS: u64 = 1000;

/// The most control lines of a run.
const MAX_CONTROLS: u64 = 10000;

/// Whether none of the records is too long.
fn are_short(records: &[Bytes]) -> bool
    ensures { result ≡ list_all (λ r. nat_le (length r) max_bytes) records.now }
{
    for record in records {
        if record.len() > MAX_BYTES {
            return false;
        }
    }
    true
}

/// Whether there is a record, there are no more than `most`, and none has more than 65,536 bytes.
pub fn are_records(records: &[Bytes], most: u32) -> bool
    ensures { result ≡ are_records_in records.now most }
{
    1 <= records.len() && (records.len() <= most as usize && are_short(records))
}

/// How many records the next fetch may bring by the record limit, and at most 1,000.
fn records_left(past: &Past<'_>) -> Result<u64, AllocError>
    ensures { IfOk result (λ n. n ≡ min 1000 (past.now.topology.now.record_limit - accepted_in (history past.now.steps.now) - fetches_out_in past.now.topology.now (history past.now.steps.now))) }
{
    let accepted = accepted(past.steps)?;
    let out = fetches_out(past.topology, past.steps)?;
    let limit = u64::from(past.topology.record_limit);
    Ok(MAX_RECORDS.min(limit.saturating_sub(accepted).saturating_sub(out)))
}

/// A pull producer brings no more than was asked for and does not wait in it yet.
fn pull_bound(flow: &Flow<'_>, spec: &StageSpec, records: u64) -> Result<u64, AllocError>
    requires lives { LivesStand (topology_of flow.now) (history_of flow.now) flow.now.past.lives.now }
    requires tables { TablesStand (topology_of flow.now) (history_of flow.now) flow.now.tables.now }
    ensures { IfOk result (λ n. n ≡ pull_bound_in (topology_of flow.now) (history_of flow.now) (Some spec.now) records) }
{
    if spec.push {
        return Ok(records);
    }
    let room = room_now(flow, spec.no)?;
    let waits = waiting_now(flow, spec.no)?;
    Ok(records.min(room.saturating_sub(waits.len() as u64)))
}

/// How many records a fetch of the producer may bring.
fn bound(flow: &Flow<'_>, stage: StageNo) -> Result<u64, AllocError>
    requires lives { LivesStand (topology_of flow.now) (history_of flow.now) flow.now.past.lives.now }
    requires tables { TablesStand (topology_of flow.now) (history_of flow.now) flow.now.tables.now }
    ensures { IfOk result (λ n. n ≡ bound_in (topology_of flow.now) (history_of flow.now) stage) }
{
    let records = records_left(&flow.past)?;
    match flow.past.topology.stages.find(stage) {
        Some(spec) => pull_bound(flow, spec, records),
        None => Ok(records),
    }
}

/// Whether the source has not ended, has no fetch out, does not rest, and the drain has not begun.
fn is_free(past: &Past<'_>, stage: StageNo) -> bool
    ensures { result ≡ (not (has_ended_in (history past.now.steps.now) stage)
        && (not (is_out_in (history past.now.steps.now) (post_in stage 0))
        && (not (rests_in (history past.now.steps.now) stage) && not (happened is_drain (history past.now.steps.now))))) }
{
    let out = is_out(past.steps, Post { stage, slot: 0 });
    !has_ended(past.steps, stage)
        && (!out && (!rests(past.steps, stage) && !has_drained(past.steps)))
}

/// Whether a fetch of so many records is within the limits.
fn is_bounded(flow: &Flow<'_>, stage: StageNo, n: u32) -> Result<bool, AllocError>
    requires lives { LivesStand (topology_of flow.now) (history_of flow.now) flow.now.past.lives.now }
    requires tables { TablesStand (topology_of flow.now) (history_of flow.now) flow.now.tables.now }
    ensures { IfOk result (λ is. is ≡ (nat_lt (accepted_bytes_in (history_of flow.now)) (topology_of flow.now).byte_limit
        && (nat_le 1 n && n == bound_in (topology_of flow.now) (history_of flow.now) stage))) }
{
    let bytes = accepted_bytes(flow.past.steps)?;
    let most = bound(flow, stage)?;
    Ok(bytes < flow.past.topology.byte_limit && (1 <= n && u64::from(n) == most))
}

/// Whether the producer may fetch `n` records.
pub fn may_fetch(flow: &Flow<'_>, stage: StageNo, n: u32) -> Result<bool, AllocError>
    requires lives { LivesStand (topology_of flow.now) (history_of flow.now) flow.now.past.lives.now }
    requires tables { TablesStand (topology_of flow.now) (history_of flow.now) flow.now.tables.now }
    ensures { IfOk result (λ may. may ≡ may_come (topology_of flow.now) (history_of flow.now) (Step.Fetch stage n)) }
{
    let bounded = is_bounded(flow, stage, n)?;
    let live = flow.past.is_live(stage) && is_producer(flow.past.topology, stage);
    Ok(live && (is_free(&flow.past, stage) && bounded))
}

/// Whether the producer's fetch may bring these records.
pub fn may_accept(past: &Past<'_>, stage: StageNo, records: &[Bytes]) -> Result<bool, AllocError>
    requires { LivesStand past.now.topology.now (history past.now.steps.now) past.now.lives.now }
    ensures { IfOk result (λ may. may ≡ may_come past.now.topology.now (history past.now.steps.now) (Step.Accept stage records.now)) }
{
    let current = is_current(past.steps, stage, 0)?;
    let fits = are_records(records, fetch_out(past.steps, stage));
    Ok(past.is_live(stage) && (is_producer(past.topology, stage) && (current && fits)))
}

/// Whether the producer's fetch may bring nothing yet.
pub fn may_answer_quiet(past: &Past<'_>, stage: StageNo) -> Result<bool, AllocError>
    requires { LivesStand past.now.topology.now (history past.now.steps.now) past.now.lives.now }
    ensures { IfOk result (λ may. may ≡ may_come past.now.topology.now (history past.now.steps.now) (Step.Quiet stage)) }
{
    let current = is_current(past.steps, stage, 0)?;
    Ok(past.is_live(stage) && (is_producer(past.topology, stage) && current))
}

fn is_limit(how: SourceHow) -> bool
    ensures { result ≡ is_limit_in how }
{
    match how {
        SourceHow::Limit => true,
        _ => false,
    }
}

/// Whether the control source may end so: by the limit where 10,000 control lines were read, and else otherwise.
fn may_end_control(past: &Past<'_>, stage: StageNo, how: SourceHow) -> Result<bool, AllocError>
    ensures { IfOk result (λ may. may ≡ (not (has_ended_in (history past.now.steps.now) stage) && same_truth (is_limit_in how) (controls_in (history past.now.steps.now) == 10000))) }
{
    let full = controls(past.steps)? == MAX_CONTROLS;
    let fits = if is_limit(how) { full } else { !full };
    Ok(!has_ended(past.steps, stage) && fits)
}

/// Whether the source of the stage may end so. Stage 0 is the control source.
pub fn may_end(past: &Past<'_>, stage: StageNo, how: SourceHow) -> Result<bool, AllocError>
    requires { LivesStand past.now.topology.now (history past.now.steps.now) past.now.lives.now }
    ensures { IfOk result (λ may. may ≡ may_end_in past.now.topology.now (history past.now.steps.now) stage how) }
{
    if stage.0 == 0 {
        return may_end_control(past, stage, how);
    }
    let current = is_current(past.steps, stage, 0)?;
    let produces = is_producer(past.topology, stage);
    Ok(past.is_live(stage) && (produces && (current && !is_limit(how))))
}
