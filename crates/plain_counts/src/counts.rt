//! Counts.

ghost use Rattle.std.specs.Prelude.{◌≡◌, ◌+◌, IfOk, length};
ghost use Rattle.pipe_model.specs.History.{history, now as now_in, now_after as now_then, incarnation as incarnation_in, incarnation_after as incarnation_then, asked as asked_in, asked_after as asked_then, accepted as accepted_in, accepted_after as accepted_then, closed as closed_in, closed_after as closed_then, bytes_in, accepted_bytes as accepted_bytes_in, accepted_bytes_after as accepted_bytes_then, controls as controls_in, controls_after as controls_then};
ghost use Rattle.pipe_types.specs.Numbers.{same_sub as same_sub_in};

use pipe_types::bytes::Bytes;
use pipe_types::message::Why;
use pipe_types::numbers::{StageNo, SubNo};
use pipe_types::step::{DrainCause, LateAnswer, Step};
use std::alloc::AllocError;

/// The sum.
pub fn plus(a: u64, b: u64) -> Result<u64, AllocError>
    ensures { IfOk result (λ sum. sum ≡ a + b) }
{
    match a.checked_add(b) {
        Some(sum) => Ok(sum),
        None => Err(AllocError),
    }
}

fn now_after(step: &Step, old: u64) -> u64
    ensures { result ≡ now_then step.now old }
{
    match step {
        Step::Tick { now } => *now,
        _ => old,
    }
}

/// The last tick in milliseconds, or 0.
pub fn now(steps: &[Step]) -> u64
    ensures { result ≡ now_in (history steps.now) }
{
    let mut now = 0;
    for step in steps {
        now = now_after(step, now);
    }
    now
}

fn incarnation_after(step: &Step, stage: StageNo, old: u64) -> Result<u64, AllocError>
    ensures { IfOk result (λ n. n ≡ incarnation_then step.now stage old) }
{
    match step {
        Step::Restart { stage: restarted } if restarted.0 == stage.0 => plus(old, 1),
        _ => Ok(old),
    }
}

/// The incarnation of a stage: 1 and its restarts so far.
pub fn incarnation(steps: &[Step], stage: StageNo) -> Result<u64, AllocError>
    ensures { IfOk result (λ n. n ≡ incarnation_in (history steps.now) stage) }
{
    let mut count = 1;
    for step in steps {
        count = incarnation_after(step, stage, count)?;
    }
    Ok(count)
}

/// Whether the two are one subscription.
pub fn same_sub(a: SubNo, b: SubNo) -> bool
    ensures { result ≡ same_sub_in a b }
{
    a.consumer.0 == b.consumer.0 && a.producer.0 == b.producer.0 && a.generation == b.generation
}

fn asked_after(step: &Step, sub: SubNo, old: u64) -> Result<u64, AllocError>
    ensures { IfOk result (λ n. n ≡ asked_then step.now sub old) }
{
    match step {
        Step::Ask { sub: on, n } if same_sub(*on, sub) => plus(old, u64::from(*n)),
        _ => Ok(old),
    }
}

/// How much was asked on the subscription.
pub fn asked(steps: &[Step], sub: SubNo) -> Result<u64, AllocError>
    ensures { IfOk result (λ n. n ≡ asked_in (history steps.now) sub) }
{
    let mut count = 0;
    for step in steps {
        count = asked_after(step, sub, count)?;
    }
    Ok(count)
}

fn accepted_after(step: &Step, old: u64) -> Result<u64, AllocError>
    ensures { IfOk result (λ n. n ≡ accepted_then step.now old) }
{
    match step {
        Step::Accept { records, .. } => plus(old, records.as_slice().len() as u64),
        Step::Late {
            answer: LateAnswer::Records(records),
            ..
        } => plus(old, records.as_slice().len() as u64),
        _ => Ok(old),
    }
}

/// How many messages were accepted.
pub fn accepted(steps: &[Step]) -> Result<u64, AllocError>
    ensures { IfOk result (λ n. n ≡ accepted_in (history steps.now)) }
{
    let mut count = 0;
    for step in steps {
        count = accepted_after(step, count)?;
    }
    Ok(count)
}

fn closed_after(step: &Step, old: u64) -> Result<u64, AllocError>
    ensures { IfOk result (λ n. n ≡ closed_then step.now old) }
{
    match step {
        Step::Close { .. } => plus(old, 1),
        _ => Ok(old),
    }
}

/// How many batches were closed.
pub fn closed(steps: &[Step]) -> Result<u64, AllocError>
    ensures { IfOk result (λ n. n ≡ closed_in (history steps.now)) }
{
    let mut count = 0;
    for step in steps {
        count = closed_after(step, count)?;
    }
    Ok(count)
}

/// How many bytes these records have.
#[tactic(auto, using(crate::proofs::Sums::bytes_more))]
fn bytes_of(records: &[Bytes]) -> Result<u64, AllocError>
    ensures { IfOk result (λ n. n ≡ bytes_in records.now) }
{
    let mut count = 0;
    for record in records {
        count = plus(count, record.len() as u64)?;
    }
    Ok(count)
}

fn accepted_bytes_after(step: &Step, old: u64) -> Result<u64, AllocError>
    ensures { IfOk result (λ n. n ≡ accepted_bytes_then step.now old) }
{
    match step {
        Step::Accept { records, .. } => plus(old, bytes_of(records.as_slice())?),
        Step::Late {
            answer: LateAnswer::Records(records),
            ..
        } => plus(old, bytes_of(records.as_slice())?),
        _ => Ok(old),
    }
}

/// How many bytes of payload were accepted.
pub fn accepted_bytes(steps: &[Step]) -> Result<u64, AllocError>
    ensures { IfOk result (λ n. n ≡ accepted_bytes_in (history steps.now)) }
{
    let mut count = 0;
    for step in steps {
        count = accepted_bytes_after(step, count)?;
    }
    Ok(count)
}

fn controls_after(step: &Step, old: u64) -> Result<u64, AllocError>
    ensures { IfOk result (λ n. n ≡ controls_then step.now old) }
{
    match step {
        Step::Kill {
            why: Why::Kill | Why::Stop,
            ..
        } => plus(old, 1),
        Step::Drain {
            cause: DrainCause::Control,
        } => plus(old, 1),
        Step::Refuse { .. } => plus(old, 1),
        _ => Ok(old),
    }
}

/// How many steps came from control lines.
pub fn controls(steps: &[Step]) -> Result<u64, AllocError>
    ensures { IfOk result (λ n. n ≡ controls_in (history steps.now)) }
{
    let mut count = 0;
    for step in steps {
        count = controls_after(step, count)?;
    }
    Ok(count)
}
