//! The work of a post on its body.

ghost use Rattle.std.specs.Prelude.{OnErr, IfOk};
ghost use Rattle.stage_bodies.specs.Jobs.{Fits, IsDone, IsCutOff, IsReset};
ghost use Rattle.body_jobs.specs.Boxes.{box_of};

use crate::Body;
use crate::batch::handle_batch;
use crate::fetch::fetch_feed;
use crate::write::write_end;
use pipe_edges::{ByteSink, ByteSource};
use pipe_types::message::{Batch, Message, MessageList};
use stage_bodies::{Outcome, Work, Works};
use stage_callback::Callback;
use stage_job::{run_chunk, run_message};
use std::alloc::{AllocError, Global};

/// Does this work. The error is want of memory.
pub(crate) fn run_work<S: ByteSource + Drop, K: ByteSink + Drop>(
    body: &mut Body<S, K>,
    alloc: Global,
    work: Work,
) -> Result<Outcome, AllocError>
    requires { Fits work (⟦<Body<S, K> as Works>⟧.look body.old) }
    ensures done { IfOk result (λ came. IsDone work came (⟦<Body<S, K> as Works>⟧.look body.old) (⟦<Body<S, K> as Works>⟧.look body.new)) }
    ensures cut_off { OnErr result (IsCutOff (⟦<Body<S, K> as Works>⟧.look body.old) (⟦<Body<S, K> as Works>⟧.look body.new)) }
{
    match work {
        Work::Fetch(most) => fetch_next(body, most),
        Work::Chunk(messages) => answer_chunk(body, alloc, messages),
        Work::Child(message) => answer_child(body, message),
        Work::Batch(batch) => write_batch(body, alloc, batch),
    }
}

fn fetch_next<S: ByteSource + Drop, K: ByteSink + Drop>(
    body: &mut Body<S, K>,
    most: u32,
) -> Result<Outcome, AllocError>
    requires { Fits (Work.Fetch most) (⟦<Body<S, K> as Works>⟧.look body.old) }
    ensures done { IfOk result (λ came. IsDone (Work.Fetch most) came (⟦<Body<S, K> as Works>⟧.look body.old) (⟦<Body<S, K> as Works>⟧.look body.new)) }
    ensures cut_off { OnErr result (IsCutOff (⟦<Body<S, K> as Works>⟧.look body.old) (⟦<Body<S, K> as Works>⟧.look body.new)) }
{
    let Some(source) = &mut body.source else {
        unreachable!();
    };
    fetch_feed(source, most)
}

#[tactic(auto, using(crate::proofs::Sources::untouched))]
fn answer_chunk<S: ByteSource + Drop, K: ByteSink + Drop>(
    body: &mut Body<S, K>,
    alloc: Global,
    messages: MessageList,
) -> Result<Outcome, AllocError>
    requires { Fits (Work.Chunk messages) (⟦<Body<S, K> as Works>⟧.look body.old) }
    ensures done { IfOk result (λ came. IsDone (Work.Chunk messages) came (⟦<Body<S, K> as Works>⟧.look body.old) (⟦<Body<S, K> as Works>⟧.look body.new)) }
    ensures cut_off { OnErr result (IsCutOff (⟦<Body<S, K> as Works>⟧.look body.old) (⟦<Body<S, K> as Works>⟧.look body.new)) }
{
    let Some(callback) = &mut body.callback else {
        unreachable!();
    };
    match run_chunk(alloc, callback, messages) {
        Ok(replies) => Ok(Outcome::Replies(replies)),
        Err(e) => Err(e),
    }
}

fn answer_child<S: ByteSource + Drop, K: ByteSink + Drop>(
    body: &mut Body<S, K>,
    message: Message,
) -> Result<Outcome, AllocError>
    requires { Fits (Work.Child message) (⟦<Body<S, K> as Works>⟧.look body.old) }
    ensures done { IfOk result (λ came. IsDone (Work.Child message) came (⟦<Body<S, K> as Works>⟧.look body.old) (⟦<Body<S, K> as Works>⟧.look body.new)) }
    ensures cut_off { OnErr result (IsCutOff (⟦<Body<S, K> as Works>⟧.look body.old) (⟦<Body<S, K> as Works>⟧.look body.new)) }
{
    let Some(callback) = &mut body.callback else {
        unreachable!();
    };
    start_over(callback);
    match run_message(callback, message) {
        Ok(reply) => Ok(Outcome::Reply(reply)),
        Err(e) => Err(e),
    }
}

/// Counts from 0.
pub(crate) fn start_over(callback: &mut Box<dyn Callback + Send>)
    ensures { let old = box_of (kind callback.old) (spec callback.old) (count callback.old) (calls callback.old) (bad callback.old) (resets callback.old) (law callback.old) (told callback.old) (said callback.old) in
        let new = box_of (kind callback.new) (spec callback.new) (count callback.new) (calls callback.new) (bad callback.new) (resets callback.new) (law callback.new) (told callback.new) (said callback.new) in
        IsReset old new }
{
    callback.reset();
}

#[tactic(auto, using(crate::proofs::Sources::untouched))]
fn write_batch<S: ByteSource + Drop, K: ByteSink + Drop>(
    body: &mut Body<S, K>,
    alloc: Global,
    batch: Batch,
) -> Result<Outcome, AllocError>
    requires { Fits (Work.Batch batch) (⟦<Body<S, K> as Works>⟧.look body.old) }
    ensures done { IfOk result (λ came. IsDone (Work.Batch batch) came (⟦<Body<S, K> as Works>⟧.look body.old) (⟦<Body<S, K> as Works>⟧.look body.new)) }
    ensures cut_off { OnErr result (IsCutOff (⟦<Body<S, K> as Works>⟧.look body.old) (⟦<Body<S, K> as Works>⟧.look body.new)) }
{
    let Some(callback) = &mut body.callback else {
        unreachable!();
    };
    match handle_batch(alloc, callback, &batch) {
        Ok((end, text)) => {
            let (bytes, end) = write_end(&mut body.sink, end, &text);
            Ok(Outcome::Wrote(bytes, end))
        }
        Err(e) => Err(e),
    }
}
