//! Where a step moves the messages that stand somewhere.

ghost use Rattle.std.specs.Prelude.{◌≡◌, IfOk, option_copied};
ghost use Rattle.pipe_model.specs.{History.{history, incarnation as incarnation_in}, Lives.{reason_in}};
ghost use Rattle.pipe_model.specs.Flow.{among as among_in, subs_of, waiting_after as waiting_after_in, dispatched as dispatched_in, taken as taken_in, answered as answered_in, reply_to as reply_to_in, done as done_in, gathered as gathered_in, put_in_batch as put_in_batch_in, lost_with as lost_with_in, killed as killed_in, child_place as child_place_in, child_ended as child_ended_in};
ghost use Rattle.plain_places.specs.{Moves.{moved_by}, Changes.{move_of}};

use pipe_types::message::{Loss, Outcome, Place, Reply, Why};
use pipe_types::numbers::{BatchNo, StageNo};
use pipe_types::room::Sent;
use pipe_types::step::Step;
use plain_batches::by_batch;
use plain_counts::{incarnation, unit_no};
use plain_lives::{Death, reason};
use plain_queues::{BatchRow, is_number};
use std::alloc::AllocError;

/// Where a step moves the messages that stand somewhere: what is sent of a stage, what it loses and
/// which batches it serves alone, what it takes, the
/// replies to its chunk, what it gathers or closes, what its batches leave, the end of a child, and what is killed.
#[derive(Drop)]
pub enum Move<'a> {
    Kept,
    Dispatched(Vec<Sent>, Vec<u32>, Vec<u32>, StageNo),
    Taken(Vec<u32>, StageNo),
    Answered(bool, Vec<u32>, &'a [Reply], StageNo),
    Gathered(StageNo, u32),
    PutInBatch(Vec<u32>, StageNo, u32),
    ByBatch(&'a [BatchRow]),
    ChildEnded(bool, Option<u32>, StageNo, u32, &'a Reply),
    Killed(Vec<Death>, &'a [BatchRow]),
}

/// Whether `n` is one of these numbers.
pub fn is_among(units: &[u32], n: u32) -> bool
    ensures { result ≡ among_in units.now n }
{
    for m in units {
        if *m == n {
            return true;
        }
    }
    false
}

/// An inbox, or lost over the size, or still waiting.
fn waiting_after(sent: &[Sent], is_over: bool, stage: StageNo, n: u32) -> Place
    ensures { result ≡ waiting_after_in (subs_of sent.now n) is_over stage }
{
    for one in sent {
        if one.unit == n {
            return Place::Inbox(one.sub);
        }
    }
    if is_over {
        Place::Lost(Loss::Overflow(stage))
    } else {
        Place::Waiting(stage)
    }
}

fn dispatched(
    sent: &[Sent],
    over: &[u32],
    alone: &[u32],
    stage: StageNo,
    n: u32,
    place: Place,
) -> Place
    ensures { result ≡ dispatched_in sent.now over.now alone.now stage n place }
{
    match place {
        Place::Waiting(at) if stage.0 == at.0 => waiting_after(sent, is_among(over, n), stage, n),
        Place::InBatch(batch) if is_among(alone, batch.0) => Place::Acked(Outcome::Successful),
        place => place,
    }
}

fn taken(units: &[u32], stage: StageNo, n: u32, place: Place) -> Place
    ensures { result ≡ taken_in units.now stage n place }
{
    match place {
        Place::Inbox(sub) if stage.0 == sub.consumer.0 && is_among(units, n) => {
            Place::Running(stage)
        }
        place => place,
    }
}

/// The reply to message `n` of the chunk.
fn reply_to<'a>(chunk: &[u32], replies: &'a [Reply], n: u32) -> Option<&'a Reply>
    ensures { option_copied result ≡ reply_to_in chunk.now replies.now n }
{
    for i in 0..chunk.len() {
        if i >= replies.len() {
            return None;
        }
        if chunk[i] == n {
            return Some(&replies[i]);
        }
    }
    None
}

fn answered(has_batchers: bool, stage: StageNo, reply: Option<&Reply>) -> Place
    ensures { result ≡ answered_in has_batchers stage (option_copied reply.entry) }
{
    match reply {
        Some(Reply::Pass(_)) => {
            if has_batchers {
                Place::Waiting(stage)
            } else {
                Place::Acked(Outcome::Successful)
            }
        }
        Some(Reply::Failed(why)) => Place::Acked(Outcome::Failed(*why)),
        Some(Reply::Raised(why)) => Place::Acked(Outcome::Failed(*why)),
        Some(Reply::Crashed) => Place::Running(stage),
        None => Place::Running(stage),
    }
}

fn done(
    has_batchers: bool,
    chunk: &[u32],
    replies: &[Reply],
    stage: StageNo,
    n: u32,
    place: Place,
) -> Place
    ensures { result ≡ done_in has_batchers chunk.now replies.now stage n place }
{
    match place {
        Place::Running(at) if stage.0 == at.0 => {
            answered(has_batchers, stage, reply_to(chunk, replies, n))
        }
        place => place,
    }
}

fn gathered(stage: StageNo, m: u32, n: u32, place: Place) -> Place
    ensures { result ≡ gathered_in stage m n place }
{
    match place {
        Place::Inbox(sub) if stage.0 == sub.consumer.0 && m == n => Place::Gathered(stage),
        place => place,
    }
}

fn put_in_batch(numbers: &[u32], stage: StageNo, batch: u32, n: u32, place: Place) -> Place
    ensures { result ≡ put_in_batch_in numbers.now stage batch n place }
{
    match place {
        Place::Gathered(at) if stage.0 == at.0 && is_among(numbers, n) => {
            Place::InBatch(BatchNo(batch))
        }
        place => place,
    }
}

/// Lost with the stage, where the set has it.
fn lost_with(
    set: &[Death],
    steps: &[Step],
    stage: StageNo,
    place: Place,
) -> Result<Place, AllocError>
    ensures { IfOk result (λ after. after ≡ lost_with_in (incarnation_in (history steps.now) stage) stage (reason_in set.now stage) place) }
{
    match reason(set, stage) {
        Some(why) => {
            let from = unit_no(incarnation(steps, stage)?)?;
            Ok(Place::Lost(Loss::Killed(stage, from, why)))
        }
        None => Ok(place),
    }
}

fn killed(set: &[Death], steps: &[Step], place: Place) -> Result<Place, AllocError>
    ensures { IfOk result (λ after. after ≡ killed_in set.now (incarnation_in (history steps.now)) place) }
{
    match place {
        Place::Waiting(at) => lost_with(set, steps, at, Place::Waiting(at)),
        Place::Inbox(sub) => lost_with(set, steps, sub.consumer, Place::Inbox(sub)),
        Place::Running(at) => lost_with(set, steps, at, Place::Running(at)),
        Place::Gathered(at) => lost_with(set, steps, at, Place::Gathered(at)),
        place => Ok(place),
    }
}

/// Where a child's message stands after its run.
fn child_place(again: bool, stage: StageNo, from: u32, reply: &Reply) -> Place
    ensures { result ≡ child_place_in again stage from reply.now }
{
    match reply {
        Reply::Pass(_) => Place::Acked(Outcome::Successful),
        Reply::Failed(why) => Place::Acked(Outcome::Failed(*why)),
        Reply::Raised(why) => Place::Acked(Outcome::Failed(*why)),
        Reply::Crashed => {
            if again {
                Place::Running(stage)
            } else {
                Place::Lost(Loss::Killed(stage, from, Why::Crash))
            }
        }
    }
}

fn child_ended(
    again: bool,
    ended: Option<u32>,
    stage: StageNo,
    from: u32,
    reply: &Reply,
    n: u32,
    place: Place,
) -> Place
    ensures { result ≡ child_ended_in again ended stage from reply.now n place }
{
    match place {
        Place::Running(at) if stage.0 == at.0 && is_number(ended, n) => {
            child_place(again, stage, from, reply)
        }
        place => place,
    }
}

/// Where message `n`, which stands at that place, goes.
pub fn moved(steps: &[Step], change: &Move<'_>, n: u32, place: Place) -> Result<Place, AllocError>
    ensures { IfOk result (λ after. after ≡ moved_by (history steps.now) (move_of change.now) n place) }
{
    match change {
        Move::Kept => Ok(place),
        Move::Dispatched(sent, over, alone, stage) => Ok(dispatched(
            sent.as_slice(),
            over.as_slice(),
            alone.as_slice(),
            *stage,
            n,
            place,
        )),
        Move::Taken(units, stage) => Ok(taken(units.as_slice(), *stage, n, place)),
        Move::Answered(has_batchers, chunk, replies, stage) => {
            Ok(done(*has_batchers, chunk.as_slice(), replies, *stage, n, place))
        }
        Move::Gathered(stage, m) => Ok(gathered(*stage, *m, n, place)),
        Move::PutInBatch(numbers, stage, batch) => {
            Ok(put_in_batch(numbers.as_slice(), *stage, *batch, n, place))
        }
        Move::ByBatch(rows) => Ok(by_batch(rows, n, place)),
        Move::ChildEnded(again, ended, stage, from, reply) => {
            Ok(child_ended(*again, *ended, *stage, *from, reply, n, place))
        }
        Move::Killed(set, rows) => { Ok(by_batch(rows, n, killed(set.as_slice(), steps, place)?)) }
    }
}
