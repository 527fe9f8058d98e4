//! Sources, fetches, restarts and the drain.

ghost use Rattle.std.specs.Prelude.{◌≡◌, ◌+◌, ◌∷◌, ◌&&◌, ◌||◌, not, Bool, true, false, nat_le, if◌then◌else◌, IfOk};
ghost use Rattle.pipe_types.specs.{Restarts.{limit_at as limit_at_in, restarts_counted, may_restart_at}, Numbers.{stage as stage_in}, declared.topology.Role.{Role}};
ghost use Rattle.pipe_model.specs.History.{History, history, now as now_in};
ghost use Rattle.pipe_model.specs.Legal.{happened, is_drain as is_drain_in, is_halt as is_halt_in, ends_source as ends_source_in, has_ended as has_ended_in, rests as rests_in, restart_times, limit_of as limit_of_in, may_restart as may_restart_in, has_role, is_producer_role as is_producer_role_in, is_processor_role as is_processor_role_in, is_batcher_role as is_batcher_role_in, is_batch_processor_role as is_batch_processor_role_in, is_supervisor_role as is_supervisor_role_in, takes_role as takes_role_in, is_early_role as is_early_role_in, fetch_out as fetch_out_in, fetches_out as fetches_out_in, is_no_fetch_out as is_no_fetch_out_in, is_current as is_current_in, gathered_at as gathered_at_in, quiet_row as quiet_row_in, may_control as may_control_in, all_ended as all_ended_in};
ghost use Rattle.plain_counts.specs.{Limits.{is_under as is_under_in}, Fetches.{last_fetch as last_fetch_in, out_of as out_of_in, role_passes}};

use crate::counts::{controls, incarnation, now, plus};
use crate::posts::{is_out, out_from};
use pipe_types::numbers::{Post, StageNo};
use pipe_types::step::{LateAnswer, Step};
use pipe_types::topology::{RestartLimit, Role, StageSpec, Topology};
use std::alloc::AllocError;

fn is_drain(step: &Step) -> bool
    ensures { result ≡ is_drain_in step.now }
{
    match step {
        Step::Drain { .. } => true,
        _ => false,
    }
}

/// Whether the drain has begun.
pub fn has_drained(steps: &[Step]) -> bool
    ensures { result ≡ happened is_drain_in (history steps.now) }
{
    let mut found = false;
    for step in steps {
        found = is_drain(step) || found;
    }
    found
}

fn is_halt(step: &Step) -> bool
    ensures { result ≡ is_halt_in step.now }
{
    match step {
        Step::Halt => true,
        _ => false,
    }
}

/// Whether the pipeline has halted.
pub fn has_halted(steps: &[Step]) -> bool
    ensures { result ≡ happened is_halt_in (history steps.now) }
{
    let mut found = false;
    for step in steps {
        found = is_halt(step) || found;
    }
    found
}

fn ends_source(step: &Step, stage: StageNo) -> bool
    ensures { result ≡ ends_source_in stage step.now }
{
    match step {
        Step::SourceEnd { stage: at, .. } => stage.0 == at.0,
        Step::Late {
            stage: at,
            answer: LateAnswer::Source(_),
            ..
        } => stage.0 == at.0,
        _ => false,
    }
}

/// Whether the source of the stage has ended. Stage 0 is the control source.
pub fn has_ended(steps: &[Step], stage: StageNo) -> bool
    ensures { result ≡ has_ended_in (history steps.now) stage }
{
    let mut found = false;
    for step in steps {
        found = ends_source(step, stage) || found;
    }
    found
}

fn rests_after(before: &[Step], step: &Step, stage: StageNo, old: bool) -> bool
    requires { old ≡ rests_in (history before.now) stage }
    ensures { result ≡ rests_in (step.now ∷ history before.now) stage }
{
    match step {
        Step::Quiet { stage: at } => stage.0 == at.0 || old,
        Step::Tick { .. } => false,
        _ => old,
    }
}

/// Whether the producer answered Quiet, and no tick has come since.
pub fn rests(steps: &[Step], stage: StageNo) -> bool
    ensures { result ≡ rests_in (history steps.now) stage }
{
    let mut resting = false;
    for i in 0..steps.len() {
        resting = rests_after(&steps[..i], &steps[i], stage, resting);
    }
    resting
}

/// The place of the stage's limit on restarts.
fn limit_of(topology: &Topology, stage: StageNo) -> usize
    ensures { result ≡ limit_of_in topology.now stage }
{
    match topology.stages.find(stage) {
        Some(spec) => spec.limit as usize,
        None => 0,
    }
}

/// The limit at that place.
fn limit_at(topology: &Topology, at: usize) -> Option<RestartLimit>
    ensures { result ≡ limit_at_in topology.now at }
{
    topology.limits.as_slice().get(at).copied()
}

/// Whether the step is a restart of a stage of the limit at that place.
fn is_under(topology: &Topology, step: &Step, limit: usize) -> bool
    ensures { result ≡ is_under_in topology.now step.now limit }
{
    match step {
        Step::Restart { stage } => limit_of(topology, *stage) == limit,
        _ => false,
    }
}

/// The count after one more step, where it counts if it is such a restart and its window has not passed.
fn counted_if(
    before: &[Step],
    is_restart: bool,
    window_ms: u64,
    time: u64,
    old: u64,
) -> Result<u64, AllocError>
    ensures { IfOk result (λ n. n ≡ (if is_restart then (if nat_le time (now_in (history before.now) + window_ms) then old + 1 else old) else old)) }
{
    if !is_restart {
        return Ok(old);
    }
    if time.saturating_sub(now(before)) <= window_ms {
        plus(old, 1)
    } else {
        Ok(old)
    }
}

/// How many restarts under the limit at that place count at that time, after one more step.
fn counted_after(
    topology: &Topology,
    before: &[Step],
    step: &Step,
    at: usize,
    window_ms: u64,
    time: u64,
    old: u64,
) -> Result<u64, AllocError>
    requires { old ≡ restarts_counted window_ms time (restart_times topology.now (history before.now) at) }
    ensures { IfOk result (λ n. n ≡ restarts_counted window_ms time (restart_times topology.now (step.now ∷ history before.now) at)) }
{
    let is_restart = is_under(topology, step, at);
    let count = counted_if(before, is_restart, window_ms, time, old)?;
    Ok(count)
}

/// Whether fewer restarts than the limit at that place allows count now.
fn is_open(
    topology: &Topology,
    steps: &[Step],
    at: usize,
    limit: RestartLimit,
) -> Result<bool, AllocError>
    ensures { IfOk result (λ may. may ≡ may_restart_at limit.max_restarts limit.window_ms (now_in (history steps.now)) (restart_times topology.now (history steps.now) at)) }
{
    let time = now(steps);
    let mut count = 0;
    for i in 0..steps.len() {
        count = counted_after(
            topology,
            &steps[..i],
            &steps[i],
            at,
            limit.window_ms,
            time,
            count,
        )?;
    }
    Ok(count < u64::from(limit.max_restarts))
}

/// Whether the stage's limit allows one more restart now.
pub fn may_restart(topology: &Topology, steps: &[Step], stage: StageNo) -> Result<bool, AllocError>
    ensures { IfOk result (λ may. may ≡ may_restart_in topology.now (history steps.now) stage) }
{
    let at = limit_of(topology, stage);
    match limit_at(topology, at) {
        Some(limit) => is_open(topology, steps, at, limit),
        None => Ok(false),
    }
}

/// The role of the stage, and none where no such stage is.
pub fn role_of(topology: &Topology, stage: StageNo) -> Option<Role>
    ensures { (test : Role → Bool) → has_role topology.now stage test ≡ role_passes test result }
{
    match topology.stages.find(stage) {
        Some(spec) => Some(spec.role),
        None => None,
    }
}

pub fn is_producer(topology: &Topology, stage: StageNo) -> bool
    ensures { result ≡ has_role topology.now stage is_producer_role_in }
{
    match role_of(topology, stage) {
        Some(Role::Producer) => true,
        _ => false,
    }
}

pub fn is_processor(topology: &Topology, stage: StageNo) -> bool
    ensures { result ≡ has_role topology.now stage is_processor_role_in }
{
    match role_of(topology, stage) {
        Some(Role::Processor) => true,
        _ => false,
    }
}

pub fn is_supervisor(topology: &Topology, stage: StageNo) -> bool
    ensures { result ≡ has_role topology.now stage is_supervisor_role_in }
{
    match role_of(topology, stage) {
        Some(Role::Supervisor) => true,
        _ => false,
    }
}

pub fn is_batcher(topology: &Topology, stage: StageNo) -> bool
    ensures { result ≡ has_role topology.now stage is_batcher_role_in }
{
    match role_of(topology, stage) {
        Some(Role::Batcher) => true,
        _ => false,
    }
}

pub fn is_batch_processor(topology: &Topology, stage: StageNo) -> bool
    ensures { result ≡ has_role topology.now stage is_batch_processor_role_in }
{
    match role_of(topology, stage) {
        Some(Role::BatchProcessor) => true,
        _ => false,
    }
}

/// Whether the stage takes units from its inbox in chunks.
pub fn takes(topology: &Topology, stage: StageNo) -> bool
    ensures { result ≡ has_role topology.now stage takes_role_in }
{
    match role_of(topology, stage) {
        Some(Role::Processor | Role::BatchProcessor) => true,
        _ => false,
    }
}

/// Whether the stage is a producer, a processor or the supervisor.
pub fn is_early(topology: &Topology, stage: StageNo) -> bool
    ensures { result ≡ has_role topology.now stage is_early_role_in }
{
    match role_of(topology, stage) {
        Some(Role::Producer | Role::Processor | Role::Supervisor) => true,
        _ => false,
    }
}

fn last_fetch_after(step: &Step, stage: StageNo, old: u32) -> u32
    ensures { (before : History) → old ≡ last_fetch_in before stage → result ≡ last_fetch_in (step.now ∷ before) stage }
{
    match step {
        Step::Fetch { stage: at, n } if stage.0 == at.0 => *n,
        _ => old,
    }
}

/// The bound of the last fetch of the producer, and 0 where it is not out.
pub fn fetch_out(steps: &[Step], stage: StageNo) -> u32
    ensures { result ≡ fetch_out_in (history steps.now) stage }
{
    let mut last = 0;
    for step in steps {
        last = last_fetch_after(step, stage, last);
    }
    if is_out(steps, Post { stage, slot: 0 }) {
        last
    } else {
        0
    }
}

fn is_producer_spec(spec: &StageSpec) -> bool
    ensures { result ≡ is_producer_role_in spec.now.role }
{
    match spec.role {
        Role::Producer => true,
        _ => false,
    }
}

fn out_of(steps: &[Step], spec: &StageSpec) -> u32
    ensures { result ≡ out_of_in (history steps.now) spec.now }
{
    if is_producer_spec(spec) {
        fetch_out(steps, spec.no)
    } else {
        0
    }
}

/// The bounds of all fetches that are out.
pub fn fetches_out(topology: &Topology, steps: &[Step]) -> Result<u64, AllocError>
    ensures { IfOk result (λ n. n ≡ fetches_out_in topology.now (history steps.now)) }
{
    let specs = topology.stages.as_slice();
    let mut sum = 0;
    for spec in specs {
        sum = plus(sum, u64::from(out_of(steps, spec)))?;
    }
    Ok(sum)
}

/// Whether no producer's fetch is out.
pub fn is_no_fetch_out(topology: &Topology, steps: &[Step]) -> bool
    ensures { result ≡ is_no_fetch_out_in topology.now (history steps.now) }
{
    let specs = topology.stages.as_slice();
    let mut none = true;
    for spec in specs {
        let out = is_producer_spec(spec)
            && is_out(
                steps,
                Post {
                    stage: spec.no,
                    slot: 0,
                },
            );
        none = none && !out;
    }
    none
}

/// Whether every producer's source has ended.
pub fn all_ended(topology: &Topology, steps: &[Step]) -> bool
    ensures { result ≡ all_ended_in topology.now (history steps.now) }
{
    let specs = topology.stages.as_slice();
    let mut all = true;
    for spec in specs {
        let ended = !is_producer_spec(spec) || has_ended(steps, spec.no);
        all = all && ended;
    }
    all
}

/// Whether the post is out, from the stage's present incarnation.
pub fn is_current(steps: &[Step], stage: StageNo, slot: u16) -> Result<bool, AllocError>
    ensures { IfOk result (λ current. current ≡ is_current_in (history steps.now) stage slot) }
{
    let at = Post { stage, slot };
    let from = out_from(steps, at)?;
    let present = incarnation(steps, stage)?;
    Ok(is_out(steps, at) && from == present)
}

fn gathered_at_after(before: &[Step], step: &Step, n: u32, old: u64) -> u64
    requires { old ≡ gathered_at_in (history before.now) n }
    ensures { result ≡ gathered_at_in (step.now ∷ history before.now) n }
{
    match step {
        Step::Gather { no, .. } if no.0 == n => now(before),
        _ => old,
    }
}

/// The tick at which the message was gathered, in milliseconds.
pub fn gathered_at(steps: &[Step], n: u32) -> u64
    ensures { result ≡ gathered_at_in (history steps.now) n }
{
    let mut at = 0;
    for i in 0..steps.len() {
        at = gathered_at_after(&steps[..i], &steps[i], n, at);
    }
    at
}

fn quiet_row_after(before: &[Step], step: &Step, old: u64) -> Result<u64, AllocError>
    requires { old ≡ quiet_row_in (history before.now) }
    ensures { IfOk result (λ n. n ≡ quiet_row_in (step.now ∷ history before.now)) }
{
    match step {
        Step::Quiet { .. } => plus(old, 1),
        Step::Fetch { .. } => Ok(old),
        Step::Tick { .. } => Ok(old),
        _ => Ok(0),
    }
}

/// The Quiet steps since the last step that is neither Fetch, Quiet nor Tick.
pub fn quiet_row(steps: &[Step]) -> Result<u64, AllocError>
    ensures { IfOk result (λ n. n ≡ quiet_row_in (history steps.now)) }
{
    let mut row = 0;
    for i in 0..steps.len() {
        row = quiet_row_after(&steps[..i], &steps[i], row)?;
    }
    Ok(row)
}

/// Whether another control line may be read.
pub fn may_control(steps: &[Step]) -> Result<bool, AllocError>
    ensures { IfOk result (λ may. may ≡ may_control_in (history steps.now)) }
{
    let read = controls(steps)?;
    Ok(!has_ended(steps, StageNo(0)) && read < 10000)
}
