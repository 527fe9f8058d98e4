//! Posts: where a job belongs, and whether it is out.

ghost use Rattle.std.specs.Prelude.{◌≡◌, IfOk, IfSome, option_map};
ghost use Rattle.pipe_types.specs.Numbers.{same_post as same_post_in};
ghost use Rattle.pipe_model.specs.History.{history};
ghost use Rattle.pipe_model.specs.Posts.{puts_out as puts_out_in, answers as answers_in, is_out as is_out_in, out_from as out_from_in, last_take as last_take_in, in_slot as in_slot_in, has_post_out as has_post_out_in};
ghost use Rattle.plain_counts.specs.Seen.{last_take_after as last_take_then, in_slot_after as in_slot_then};

use crate::counts::incarnation;
use pipe_types::numbers::{Post, StageNo, SubNo};
use pipe_types::step::Step;
use std::alloc::AllocError;

fn same_post(a: Post, b: Post) -> bool
    ensures { result ≡ same_post_in a b }
{
    a.stage.0 == b.stage.0 && a.slot == b.slot
}

fn post(stage: StageNo, slot: u16) -> Post
    ensures { result ≡ record { stage = stage; slot = slot } }
{
    Post { stage, slot }
}

/// Whether the step puts the post out.
pub fn puts_out(step: &Step, at: Post) -> bool
    ensures { result ≡ puts_out_in step.now at }
{
    match step {
        Step::Fetch { stage, .. } => same_post(at, post(*stage, 0)),
        Step::Take { stage, .. } => same_post(at, post(*stage, 0)),
        Step::Child { stage, slot, .. } => same_post(at, post(*stage, *slot)),
        _ => false,
    }
}

/// Whether the step answers the post.
pub fn answers(step: &Step, at: Post) -> bool
    ensures { result ≡ answers_in step.now at }
{
    match step {
        Step::Accept { stage, .. } => same_post(at, post(*stage, 0)),
        Step::Quiet { stage } => same_post(at, post(*stage, 0)),
        Step::SourceEnd { stage, .. } => stage.0 != 0 && same_post(at, post(*stage, 0)),
        Step::Done { stage, .. } => same_post(at, post(*stage, 0)),
        Step::Wrote { stage, .. } => same_post(at, post(*stage, 0)),
        Step::ChildEnd { stage, slot, .. } => same_post(at, post(*stage, *slot)),
        Step::Late { stage, slot, .. } => same_post(at, post(*stage, *slot)),
        _ => false,
    }
}

/// Whether the last step that put the post out is followed by none that answers it.
pub fn is_out(steps: &[Step], at: Post) -> bool
    ensures { result ≡ is_out_in (history steps.now) at }
{
    let mut out = false;
    for step in steps {
        out = puts_out(step, at) || (!answers(step, at) && out);
    }
    out
}

/// The incarnation from which the post was last put out, and 0 where it never was.
pub fn out_from(steps: &[Step], at: Post) -> Result<u64, AllocError>
    ensures { IfOk result (λ n. n ≡ out_from_in (history steps.now) at) }
{
    let mut from = 0;
    for i in 0..steps.len() {
        if puts_out(&steps[i], at) {
            from = incarnation(&steps[..i], at.stage)?;
        }
    }
    Ok(from)
}

fn last_take_after(step: &Step, stage: StageNo, old: Option<(SubNo, u32)>) -> Option<(SubNo, u32)>
    ensures { result ≡ last_take_then step.now stage old }
{
    match step {
        Step::Take {
            stage: taker,
            sub,
            k,
        } if taker.0 == stage.0 => Some((*sub, *k)),
        _ => old,
    }
}

/// What the last take of the stage took: the subscription and how many units.
#[tactic(auto, using(crate::proofs::Folds::last_take_more))]
pub fn last_take(steps: &[Step], stage: StageNo) -> Option<(SubNo, u32)>
    ensures { result ≡ last_take_in (history steps.now) stage }
{
    let mut last = None;
    for step in steps {
        last = last_take_after(step, stage, last);
    }
    last
}

fn in_slot_after(step: &Step, stage: StageNo, slot: u16, old: Option<u32>) -> Option<u32>
    ensures { result ≡ in_slot_then step.now stage slot old }
{
    match step {
        Step::Child {
            stage: starter,
            no,
            slot: started,
        } if starter.0 == stage.0 && *started == slot => Some(no.0),
        _ => old,
    }
}

/// The message that was last started in the slot.
#[tactic(auto, using(crate::proofs::Folds::in_slot_more))]
pub fn in_slot(steps: &[Step], stage: StageNo, slot: u16) -> Option<u32>
    ensures { result ≡ in_slot_in (history steps.now) stage slot }
{
    let mut last = None;
    for step in steps {
        last = in_slot_after(step, stage, slot, last);
    }
    last
}

/// Whether some post of the stage is out.
pub fn has_post_out(steps: &[Step], stage: StageNo) -> bool
    ensures { result ≡ has_post_out_in (history steps.now) stage }
{
    let slots: [u16; 16] = [0, 1, 2, 3, 4, 5, 6, 7, 8, 9, 10, 11, 12, 13, 14, 15];
    let mut out = false;
    for slot in slots.as_slice() {
        out = out || is_out(steps, post(stage, *slot));
    }
    out
}
