//! What waits, stands in an inbox, runs, or is gathered.

ghost use Rattle.std.specs.{Prelude.{◌≡◌, ◌++◌, ◌∷◌, [], IfOk, map, take, if◌then◌else◌}, Str.{bytes_eq}};
ghost use Rattle.pipe_types.specs.Stages.{spec_of};
ghost use Rattle.pipe_model.specs.{History.{history}, Content.{content as content_in, key_in}};
ghost use Rattle.pipe_model.specs.Flow.{is_batcher as is_batcher_in, waits_in as waits_in_model, runs_in as runs_in_model, is_gathered_in as is_gathered_in_model, in_inbox_by as in_inbox_by_model, batch_waits_in as batch_waits_in_model, leg_waits as leg_waits_model, leg_waits_in as leg_waits_in_model, waiting_by, inbox_by, units_on as units_on_in, chunk_by, open_batch_by, next_units as next_units_in, closing as closing_in, is_number as is_number_in};
ghost use Rattle.plain_queues.specs.{Flows.{topology_of, history_of}, Views.{leg_of, place_at, batch_at, standing_of, running_of, view_in}};

use crate::flow::Flow;
use crate::tables::{BatchPlace, Leg, LegPlace, Tables, batch_row, place_of};
use pipe_types::message::Place;
use pipe_types::numbers::{StageNo, SubNo};
use pipe_types::room::Sent;
use pipe_types::step::Step;
use pipe_types::topology::{Role, Topology};
use plain_counts::{Seen, arrivals, content, gathers, same_sub};
use std::alloc::{AllocError, Global};

/// Whether the stage is a batcher, whose units are batches.
pub fn is_batcher_stage(topology: &Topology, stage: StageNo) -> bool
    ensures { result ≡ is_batcher_in (spec_of topology.now stage) }
{
    match topology.stages.find(stage) {
        Some(spec) => match spec.role {
            Role::Batcher => true,
            _ => false,
        },
        None => false,
    }
}

fn waits_in(stage: StageNo, place: Option<Place>) -> bool
    ensures { result ≡ waits_in_model stage place }
{
    match place {
        Some(Place::Waiting(at)) => stage.0 == at.0,
        _ => false,
    }
}

fn runs_in(stage: StageNo, place: Option<Place>) -> bool
    ensures { result ≡ runs_in_model stage place }
{
    match place {
        Some(Place::Running(at)) => stage.0 == at.0,
        _ => false,
    }
}

fn is_gathered_in(stage: StageNo, place: Option<Place>) -> bool
    ensures { result ≡ is_gathered_in_model stage place }
{
    match place {
        Some(Place::Gathered(at)) => stage.0 == at.0,
        _ => false,
    }
}

fn in_inbox_by(sub: SubNo, place: Option<Place>) -> bool
    ensures { result ≡ in_inbox_by_model sub place }
{
    match place {
        Some(Place::Inbox(on)) => same_sub(sub, on),
        _ => false,
    }
}

/// Whether batch `n` waits in the stage.
fn batch_waits_in(tables: &Tables, stage: StageNo, n: u32) -> bool
    ensures { result ≡ batch_waits_in_model stage (batch_at tables.now.batches.items n) }
{
    match batch_row(tables, n) {
        Some(row) => match row.place {
            BatchPlace::AtBatcher(at) => stage.0 == at.0,
            _ => false,
        },
        None => false,
    }
}

/// Whether the leg is one on this subscription, in its inbox.
fn is_leg_waiting(sub: SubNo, leg: &Leg) -> bool
    ensures { result ≡ leg_waits_model sub (leg_of leg.now ∷ []) }
{
    match leg.place {
        LegPlace::InInbox => same_sub(sub, leg.sub),
        _ => false,
    }
}

fn leg_waits(sub: SubNo, legs: &[Leg]) -> bool
    ensures { result ≡ leg_waits_model sub (map leg_of legs.now) }
{
    for leg in legs {
        if is_leg_waiting(sub, leg) {
            return true;
        }
    }
    false
}

/// Whether batch `n` has a leg in the inbox of this subscription.
fn leg_waits_in(tables: &Tables, sub: SubNo, n: u32) -> bool
    ensures { result ≡ leg_waits_in_model sub (batch_at tables.now.batches.items n) }
{
    match batch_row(tables, n) {
        Some(row) => match &row.place {
            BatchPlace::Sent(legs) => leg_waits(sub, legs.as_slice()),
            _ => false,
        },
        None => false,
    }
}

/// Whether the unit waits in the stage.
fn unit_waits(flow: &Flow<'_>, stage: StageNo, n: u32) -> bool
    ensures { result ≡ (if is_batcher_in (spec_of (topology_of flow.now) stage) then batch_waits_in_model stage (batch_at flow.now.tables.now.batches.items n) else waits_in_model stage (place_at flow.now.tables.now.places.items n)) }
{
    if is_batcher_stage(flow.past.topology, stage) {
        batch_waits_in(flow.tables, stage, n)
    } else {
        waits_in(stage, place_of(flow.tables, n))
    }
}

/// The units that wait in the stage, in order of arrival: of a batcher batches, of every other stage messages.
pub fn waiting(flow: &Flow<'_>, stage: StageNo) -> Result<Vec<u32>, AllocError>
    ensures { IfOk result (λ units. units.items ≡ waiting_by (topology_of flow.now) (history_of flow.now) (view_in flow.now.tables.now) stage) }
{
    let arrived = arrivals(flow.alloc, flow.past.steps, stage)?;
    let all = arrived.as_slice();
    let mut units = Vec::new(flow.alloc);
    for n in all {
        if unit_waits(flow, stage, *n) {
            units.push(*n)?;
        }
    }
    Ok(units)
}

/// Whether the unit stands in the consumer's inbox on the subscription.
fn unit_stands(flow: &Flow<'_>, sub: SubNo, n: u32) -> bool
    ensures { result ≡ (if is_batcher_in (spec_of (topology_of flow.now) sub.producer) then leg_waits_in_model sub (batch_at flow.now.tables.now.batches.items n) else in_inbox_by_model sub (place_at flow.now.tables.now.places.items n)) }
{
    if is_batcher_stage(flow.past.topology, sub.producer) {
        leg_waits_in(flow.tables, sub, n)
    } else {
        in_inbox_by(sub, place_of(flow.tables, n))
    }
}

/// Puts the unit behind the others where it is the consumer's and stands in its inbox.
fn push_standing(
    units: Vec<(SubNo, u32)>,
    flow: &Flow<'_>,
    consumer: StageNo,
    sent: &Sent,
) -> Result<Vec<(SubNo, u32)>, AllocError>
    ensures { IfOk result (λ more. more.items ≡ units.items ++ standing_of (topology_of flow.now) flow.now.tables.now consumer (sent.now ∷ [])) }
{
    let mut more = units;
    if consumer.0 == sent.sub.consumer.0 && unit_stands(flow, sent.sub, sent.unit) {
        more.push((sent.sub, sent.unit))?;
    }
    Ok(more)
}

/// The units in the consumer's inbox, in order of arrival, each with its subscription.
pub fn inbox(flow: &Flow<'_>, consumer: StageNo) -> Result<Vec<(SubNo, u32)>, AllocError>
    ensures { IfOk result (λ units. units.items ≡ inbox_by (topology_of flow.now) (view_in flow.now.tables.now) consumer) }
{
    let sends = flow.tables.sends.as_slice();
    let mut units = Vec::new(flow.alloc);
    for sent in sends {
        units = push_standing(units, flow, consumer, sent)?;
    }
    Ok(units)
}

/// The units that came on the subscription.
pub fn units_on(alloc: Global, sub: SubNo, units: &[(SubNo, u32)]) -> Result<Vec<u32>, AllocError>
    ensures { IfOk result (λ on. on.items ≡ units_on_in sub units.now) }
{
    let mut on = Vec::new(alloc);
    for unit in units {
        if same_sub(unit.0, sub) {
            on.push(unit.1)?;
        }
    }
    Ok(on)
}

/// Puts the message behind the others where it was sent to the stage and runs in it.
fn push_running(
    units: Vec<u32>,
    flow: &Flow<'_>,
    stage: StageNo,
    sent: &Sent,
) -> Result<Vec<u32>, AllocError>
    ensures { IfOk result (λ more. more.items ≡ units.items ++ running_of flow.now.tables.now stage (sent.now ∷ [])) }
{
    let mut more = units;
    if stage.0 == sent.sub.consumer.0 && runs_in(stage, place_of(flow.tables, sent.unit)) {
        more.push(sent.unit)?;
    }
    Ok(more)
}

/// The messages that run in the stage, in the order in which they were sent to it.
pub fn chunk(flow: &Flow<'_>, stage: StageNo) -> Result<Vec<u32>, AllocError>
    ensures { IfOk result (λ units. units.items ≡ chunk_by (view_in flow.now.tables.now) stage) }
{
    let sends = flow.tables.sends.as_slice();
    let mut units = Vec::new(flow.alloc);
    for sent in sends {
        units = push_running(units, flow, stage, sent)?;
    }
    Ok(units)
}

/// The next `k` units of the consumer's inbox that came on the subscription.
pub fn next_units(
    flow: &Flow<'_>,
    consumer: StageNo,
    sub: SubNo,
    k: u32,
) -> Result<Vec<u32>, AllocError>
    ensures { IfOk result (λ units. units.items ≡ next_units_in (topology_of flow.now) (view_in flow.now.tables.now) consumer sub k) }
{
    let all = inbox(flow, consumer)?;
    let on = units_on(flow.alloc, sub, all.as_slice())?;
    Vec::from_slice(flow.alloc, front(on.as_slice(), k))
}

fn front(units: &[u32], k: u32) -> &[u32]
    ensures { result.now ≡ take k units.now }
{
    if k as usize <= units.len() {
        &units[..k as usize]
    } else {
        units
    }
}

/// The key of message `n`, and an empty one where none passed it.
pub fn key_of(steps: &[Step], n: u32) -> Result<&[u8], AllocError>
    ensures { IfOk result (λ key. key.now ≡ key_in (content_in (history steps.now) n)) }
{
    let none: &[u8] = b"";
    match content(steps, n)? {
        Some(Seen::Passed(message)) => Ok(message.key.as_slice()),
        Some(Seen::Accepted(_, _, _)) => Ok(none),
        None => Ok(none),
    }
}

/// Whether the message has that key.
fn has_key(steps: &[Step], n: u32, key: &[u8]) -> Result<bool, AllocError>
    ensures { IfOk result (λ has. has ≡ bytes_eq (key_in (content_in (history steps.now) n)) key.now) }
{
    let own = key_of(steps, n)?;
    Ok(own == key)
}

/// The messages gathered under that key, in order.
pub fn open_batch(flow: &Flow<'_>, stage: StageNo, key: &[u8]) -> Result<Vec<u32>, AllocError>
    ensures { IfOk result (λ units. units.items ≡ open_batch_by (history_of flow.now) (view_in flow.now.tables.now) stage key.now) }
{
    let gathered = gathers(flow.alloc, flow.past.steps, stage)?;
    let all = gathered.as_slice();
    let mut units = Vec::new(flow.alloc);
    for n in all {
        let has = has_key(flow.past.steps, *n, key)?;
        if is_gathered_in(stage, place_of(flow.tables, *n)) && has {
            units.push(*n)?;
        }
    }
    Ok(units)
}

/// The open batch of the key of message `n`.
pub fn closing(flow: &Flow<'_>, stage: StageNo, n: u32) -> Result<Vec<u32>, AllocError>
    ensures { IfOk result (λ units. units.items ≡ closing_in (history_of flow.now) (view_in flow.now.tables.now) stage n) }
{
    let key = key_of(flow.past.steps, n)?;
    open_batch(flow, stage, key)
}

/// Whether the number is `n`.
pub fn is_number(number: Option<u32>, n: u32) -> bool
    ensures { result ≡ is_number_in number n }
{
    match number {
        Some(m) => m == n,
        None => false,
    }
}
