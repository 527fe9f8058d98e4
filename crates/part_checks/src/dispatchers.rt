//! What is sent to the consumers of one producer, by the dispatchers and by the rule of the slow machine.
//!
//! An act is `OPEN=WAITING`: the open demands of the consumers, numbered from 0, and how many units wait, or of what part each
//! of them is. It is answered by a line, of unit and consumer of each send. Of `by_rule` it is `KIND:OPEN=WAITING`. Of
//! `by_selected` it is `OPEN=WAITING:PICKS`, of each unit behind a dot a 1 for each consumer that picks it and a 0 for each
//! other, and the line begins with how many units are served. All acts of a case go to one dispatcher. Of `keys` an act is `part=KEY:PARTS`, or `plain=KEY:PARTS` of the slow machine.

use crate::rooms::rooms;
use crate::words::{Case, cut, item, number, numbers, refuse};
use dispatch_broadcast::BroadcastDispatch;
use dispatch_demand::DemandDispatch;
use dispatch_partition::PartitionDispatch;
use pipe_types::room::Sent;
use pipe_types::topology::Dispatch;
use std::alloc::{AllocError, Global};
use told_text::Told;

pub fn by_demand(told: &mut Told, case: &Case<'_>) -> Result<(), AllocError> {
    let mut dispatch = DemandDispatch::new(told.alloc);
    for act in case.acts.split_whitespace() {
        let (open, waiting) = cut(act, '=');
        let open = numbers(told.alloc, open)?;
        let rooms = rooms(told.alloc, &open)?;
        let sent = dispatch.deliver(number(waiting), &rooms)?;
        tell_sent(told, sent.as_slice());
    }
    Ok(())
}

pub fn by_broadcast(told: &mut Told, case: &Case<'_>) -> Result<(), AllocError> {
    let mut dispatch = BroadcastDispatch::new(told.alloc);
    for act in case.acts.split_whitespace() {
        let (open, waiting) = cut(act, '=');
        let open = numbers(told.alloc, open)?;
        let rooms = rooms(told.alloc, &open)?;
        let sent = dispatch.deliver(number(waiting), &rooms)?;
        tell_sent(told, sent.as_slice());
    }
    Ok(())
}

pub fn by_selected(told: &mut Told, case: &Case<'_>) -> Result<(), AllocError> {
    let mut dispatch = BroadcastDispatch::new(told.alloc);
    for act in case.acts.split_whitespace() {
        let (open, waiting) = cut(act, '=');
        let picks = picks_in(told.alloc, item(waiting, 1))?;
        let open = numbers(told.alloc, open)?;
        send_selected(told, &mut dispatch, &open, number(item(waiting, 0)), &picks)?;
    }
    Ok(())
}

fn picks_in(alloc: Global, word: &str) -> Result<Vec<bool>, AllocError> {
    let mut picks = Vec::new(alloc);
    for letter in word.chars() {
        if letter != '.' {
            picks.push(letter == '1')?;
        }
    }
    Ok(picks)
}

fn send_selected(
    told: &mut Told,
    dispatch: &mut BroadcastDispatch,
    open: &[u32],
    waiting: u32,
    picks: &[bool],
) -> Result<(), AllocError> {
    let rooms = rooms(told.alloc, open)?;
    if waiting > 1_000 || rooms.len() > 1_000 || picks.len() != waiting as usize * rooms.len() {
        refuse(told);
        return Ok(());
    }
    let served = dispatch.deliver_selected(waiting, &rooms, picks)?;
    told.behind("\n  served ", u64::from(served.units));
    add_sent(told, served.sent.as_slice());
    Ok(())
}

pub fn by_partition(told: &mut Told, case: &Case<'_>) -> Result<(), AllocError> {
    let mut dispatch = PartitionDispatch::new(told.alloc);
    for act in case.acts.split_whitespace() {
        let (open, waiting) = cut(act, '=');
        let parts = numbers(told.alloc, waiting)?;
        let open = numbers(told.alloc, open)?;
        send_parts(told, &mut dispatch, &open, &parts)?;
    }
    Ok(())
}

fn send_parts(
    told: &mut Told,
    dispatch: &mut PartitionDispatch,
    open: &[u32],
    parts: &[u32],
) -> Result<(), AllocError> {
    if parts.len() > 1_000 {
        refuse(told);
        return Ok(());
    }
    let rooms = rooms(told.alloc, open)?;
    let sent = dispatch.deliver(parts, &rooms)?;
    tell_sent(told, sent.as_slice());
    Ok(())
}

/// Unit and consumer of each send, in a line.
fn tell_sent(told: &mut Told, sent: &[Sent]) {
    told.add("\n ");
    add_sent(told, sent);
}

fn add_sent(told: &mut Told, sent: &[Sent]) {
    for one in sent {
        told.count(u64::from(one.unit));
        told.behind(":", u64::from(one.sub.consumer.0));
    }
}

pub fn by_rule(told: &mut Told, case: &Case<'_>) -> Result<(), AllocError> {
    for act in case.acts.split_whitespace() {
        let (how, waiting) = cut(act, '=');
        let sent = sent_by(told.alloc, kind_of(item(how, 0)), item(how, 1), waiting)?;
        tell_sent(told, &sent);
    }
    Ok(())
}

fn kind_of(word: &str) -> Dispatch {
    match word {
        "broadcast" => Dispatch::Broadcast,
        "partition" => Dispatch::Partition,
        _ => Dispatch::Demand,
    }
}

fn sent_by(
    alloc: Global,
    kind: Dispatch,
    open: &str,
    waiting: &str,
) -> Result<Vec<Sent>, AllocError> {
    let open = numbers(alloc, open)?;
    let rooms = rooms(alloc, &open)?;
    let units = units_of(alloc, waiting)?;
    plain_dispatch::sends(alloc, kind, &rooms, &units)
}

/// The units from the first on, each with its part.
fn units_of(alloc: Global, waiting: &str) -> Result<Vec<(u32, u32)>, AllocError> {
    let parts = numbers(alloc, waiting)?;
    let mut units: Vec<(u32, u32)> = Vec::new(alloc);
    for (unit, part) in (0..1_000u32).zip(&parts) {
        units.push((unit, *part))?;
    }
    Ok(units)
}

pub fn keys(told: &mut Told, case: &Case<'_>) {
    for act in case.acts.split_whitespace() {
        let (verb, rest) = cut(act, '=');
        tell_part(told, verb, item(rest, 0), number(item(rest, 1)));
    }
}

fn tell_part(told: &mut Told, verb: &str, key: &str, parts: u32) {
    if verb == "plain" {
        told.count(plain_dispatch::partition_of(key.as_bytes(), parts));
    } else if parts == 0 {
        refuse(told);
    } else {
        told.count(u64::from(dispatch_partition::partition_of(key.as_bytes(), parts)));
    }
}
