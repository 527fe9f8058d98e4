//! What was handled on subscriptions, and when an ask is due.

ghost use Rattle.std.specs.Prelude.{◌≡◌, ◌∷◌, [], ◌++◌, ◌&&◌, if◌then◌else◌, IfOk, Some, option_map};
ghost use Rattle.pipe_types.specs.Stages.{spec_of};
ghost use Rattle.pipe_model.specs.{History.{history}, Posts.{in_slot as in_slot_in}};
ghost use Rattle.pipe_model.specs.Flow.{view_of, place as place_in, sent_to as sent_to_in, delivered_to, runs_again as runs_again_in};
ghost use Rattle.pipe_model.specs.Ledger.{handled as handled_in, pending as pending_in, due as due_in, max_in, min_in, crashed_reply, crashes_of as crashes_of_in};
ghost use Rattle.plain_lives.specs.Lives.{LivesStand};
ghost use Rattle.plain_queues.specs.{Flows.{topology_of, history_of}, Views.{view_in}};
ghost use Rattle.plain_works.specs.Works.{is_on as is_on_in, handled_by, handling_of, of_take as of_take_in, of_inbox as of_inbox_in, subs_for as subs_for_in, step_handles, WorksStand};

use crate::children::{crashes_of, is_crash};
use crate::works::{HandledRow, Works};
use pipe_types::message::{BatchEnd, Place, Reply};
use pipe_types::numbers::{StageNo, SubNo};
use pipe_types::room::Sent;
use pipe_types::step::Step;
use pipe_types::topology::Topology;
use plain_counts::{asked, has_crash, in_slot, last_take, plus, runs_again, same_sub};
use plain_lives::Past;
use plain_queues::{Flow, is_number, place_of};
use std::alloc::{AllocError, Global};

fn is_on(subs: &[SubNo], sub: SubNo) -> bool
    ensures { result ≡ is_on_in subs.now sub }
{
    for on in subs {
        if same_sub(*on, sub) {
            return true;
        }
    }
    false
}

/// How many units of the row count on the subscription.
fn units_of(row: &HandledRow, sub: SubNo) -> u64
    ensures { result ≡ (if is_on_in row.now.subs.items sub then row.now.units else 0) }
{
    if is_on(row.subs.as_slice(), sub) {
        row.units
    } else {
        0
    }
}

fn handled_in_rows(rows: &[HandledRow], sub: SubNo) -> Result<u64, AllocError>
    ensures { IfOk result (λ n. n ≡ handled_by rows.now sub) }
{
    let mut count = 0;
    for row in rows {
        count = plus(count, units_of(row, sub))?;
    }
    Ok(count)
}

/// How many units of the subscription were handled.
pub fn handled(past: &Past<'_>, works: &Works, sub: SubNo) -> Result<u64, AllocError>
    requires { WorksStand past.now.topology.now (history past.now.steps.now) works.now }
    ensures { IfOk result (λ n. n ≡ handled_in past.now.topology.now (history past.now.steps.now) sub) }
{
    handled_in_rows(works.handled.as_slice(), sub)
}

/// What was asked on the subscription and is not handled yet.
fn pending(past: &Past<'_>, works: &Works, sub: SubNo) -> Result<u64, AllocError>
    requires { WorksStand past.now.topology.now (history past.now.steps.now) works.now }
    ensures { IfOk result (λ n. n ≡ pending_in past.now.topology.now (history past.now.steps.now) sub) }
{
    let asked = asked(past.steps, sub)?;
    let handled = handled(past, works, sub)?;
    Ok(asked.saturating_sub(handled))
}

fn max_of(topology: &Topology, stage: StageNo) -> u64
    ensures { result ≡ max_in (spec_of topology.now stage) }
{
    match topology.stages.find(stage) {
        Some(spec) => u64::from(spec.max),
        None => 0,
    }
}

fn min_of(topology: &Topology, stage: StageNo) -> u64
    ensures { result ≡ min_in (spec_of topology.now stage) }
{
    match topology.stages.find(stage) {
        Some(spec) => u64::from(spec.min),
        None => 0,
    }
}

/// The size of the ask that is due on the subscription, and 0 where none is.
pub fn due(past: &Past<'_>, works: &Works, sub: SubNo) -> Result<u64, AllocError>
    requires lives { LivesStand past.now.topology.now (history past.now.steps.now) past.now.lives.now }
    requires works { WorksStand past.now.topology.now (history past.now.steps.now) works.now }
    ensures { IfOk result (λ n. n ≡ due_in past.now.topology.now (history past.now.steps.now) sub) }
{
    let pending = pending(past, works, sub)?;
    let live = past.is_live_sub(sub)?;
    if live && pending <= min_of(past.topology, sub.consumer) {
        Ok(max_of(past.topology, sub.consumer).saturating_sub(pending))
    } else {
        Ok(0)
    }
}

fn one_sub(alloc: Global, sub: SubNo) -> Result<Vec<SubNo>, AllocError>
    ensures { IfOk result (λ subs. subs.items ≡ sub ∷ []) }
{
    let mut subs = Vec::new(alloc);
    subs.push(sub)?;
    Ok(subs)
}

/// So many units on this subscription alone.
fn on_one(alloc: Global, sub: SubNo, units: u64) -> Result<Option<HandledRow>, AllocError>
    ensures { IfOk result (λ row. option_map handling_of row ≡ Some (sub ∷ [], units)) }
{
    let subs = one_sub(alloc, sub)?;
    Ok(Some(HandledRow { subs, units }))
}

fn of_take(alloc: Global, taken: Option<(SubNo, u32)>) -> Result<Option<HandledRow>, AllocError>
    ensures { IfOk result (λ row. option_map handling_of row ≡ of_take_in taken) }
{
    match taken {
        Some((sub, k)) => on_one(alloc, sub, u64::from(k)),
        None => Ok(None),
    }
}

fn of_inbox(alloc: Global, place: Option<Place>) -> Result<Option<HandledRow>, AllocError>
    ensures { IfOk result (λ row. option_map handling_of row ≡ of_inbox_in place) }
{
    match place {
        Some(Place::Inbox(sub)) => on_one(alloc, sub, 1),
        _ => Ok(None),
    }
}

/// Where message `n` stands.
fn place_now(flow: &Flow<'_>, n: u32) -> Option<Place>
    requires { view_in flow.now.tables.now ≡ view_of (topology_of flow.now) (history_of flow.now) }
    ensures { result ≡ place_in (topology_of flow.now) (history_of flow.now) n }
{
    place_of(flow.tables, n)
}

/// Puts the subscription behind the others where the unit is the message, sent to the consumer.
fn push_sub(
    subs: Vec<SubNo>,
    consumer: StageNo,
    m: Option<u32>,
    sent: &Sent,
) -> Result<Vec<SubNo>, AllocError>
    ensures { IfOk result (λ more. more.items ≡ subs.items ++ subs_for_in (delivered_to (sent.now ∷ []) consumer) m) }
{
    let mut more = subs;
    if consumer.0 == sent.sub.consumer.0 && is_number(m, sent.unit) {
        more.push(sent.sub)?;
    }
    Ok(more)
}

/// The subscriptions on which the message was sent to the consumer.
fn subs_in(
    alloc: Global,
    sends: &[Sent],
    consumer: StageNo,
    m: Option<u32>,
) -> Result<Vec<SubNo>, AllocError>
    ensures { IfOk result (λ subs. subs.items ≡ subs_for_in (delivered_to sends.now consumer) m) }
{
    let mut subs = Vec::new(alloc);
    for sent in sends {
        subs = push_sub(subs, consumer, m, sent)?;
    }
    Ok(subs)
}

fn subs_for(flow: &Flow<'_>, consumer: StageNo, m: Option<u32>) -> Result<Vec<SubNo>, AllocError>
    requires { view_in flow.now.tables.now ≡ view_of (topology_of flow.now) (history_of flow.now) }
    ensures { IfOk result (λ subs. subs.items ≡ subs_for_in (sent_to_in (topology_of flow.now) (history_of flow.now) consumer) m) }
{
    subs_in(flow.alloc, flow.tables.sends.as_slice(), consumer, m)
}

/// Whether the child's message runs again after this reply.
fn starts_again(
    past: &Past<'_>,
    stage: StageNo,
    slot: u16,
    reply: &Reply,
) -> Result<bool, AllocError>
    ensures { IfOk result (λ again. again ≡ (crashed_reply reply.now
        && runs_again_in (spec_of past.now.topology.now stage) (crashes_of_in (history past.now.steps.now) (in_slot_in (history past.now.steps.now) stage slot)))) }
{
    let crashes = crashes_of(past.steps, in_slot(past.steps, stage, slot))?;
    Ok(is_crash(reply) && runs_again(past.topology.stages.find(stage), crashes))
}

fn of_child(flow: &Flow<'_>, stage: StageNo, slot: u16) -> Result<Option<HandledRow>, AllocError>
    requires { view_in flow.now.tables.now ≡ view_of (topology_of flow.now) (history_of flow.now) }
    ensures { IfOk result (λ row. option_map handling_of row ≡ Some (subs_for_in (sent_to_in (topology_of flow.now) (history_of flow.now) stage) (in_slot_in (history_of flow.now) stage slot), 1)) }
{
    let m = in_slot(flow.past.steps, stage, slot);
    let subs = subs_for(flow, stage, m)?;
    Ok(Some(HandledRow { subs, units: 1 }))
}

/// What the step handles.
pub(crate) fn handled_row(flow: &Flow<'_>, step: &Step) -> Result<Option<HandledRow>, AllocError>
    requires { view_in flow.now.tables.now ≡ view_of (topology_of flow.now) (history_of flow.now) }
    ensures { IfOk result (λ row. option_map handling_of row ≡ step_handles (topology_of flow.now) (history_of flow.now) step.now) }
{
    match step {
        Step::Done { stage, replies } if !has_crash(replies.as_slice()) => {
            of_take(flow.alloc, last_take(flow.past.steps, *stage))
        }
        Step::Wrote {
            stage,
            end: BatchEnd::Outcomes(_),
            ..
        } => of_take(flow.alloc, last_take(flow.past.steps, *stage)),
        Step::Gather { no, .. } => of_inbox(flow.alloc, place_now(flow, no.0)),
        Step::ChildEnd { stage, slot, reply } => {
            if starts_again(&flow.past, *stage, *slot, reply)? {
                Ok(None)
            } else {
                of_child(flow, *stage, *slot)
            }
        }
        _ => Ok(None),
    }
}
