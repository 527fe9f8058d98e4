//! The children of a supervisor.
//!
//! Begins with `SLOTS:MODE`. The acts are `start=MESSAGE`; `held`, the slots that have a child; `slot=SLOT`, the message of its
//! child; `crash=MESSAGE` and `finish=MESSAGE`, what becomes of the child of that message; `has=MESSAGE`; and `clear`.

use crate::words::{Case, cut, item, number, refuse, short};
use consumer_sup::{ChildEnd, Children};
use pipe_types::numbers::MsgNo;
use pipe_types::topology::ChildMode;
use std::alloc::AllocError;
use told_text::Told;

pub fn run(told: &mut Told, case: &Case<'_>) -> Result<(), AllocError> {
    let mode = if item(case.begun, 1) == "transient" {
        ChildMode::Transient
    } else {
        ChildMode::Temporary
    };
    let mut children = Children::new(told.alloc, short(item(case.begun, 0)), mode)?;
    for act in case.acts.split_whitespace() {
        let (verb, rest) = cut(act, '=');
        act_on(told, &mut children, verb, number(rest));
    }
    Ok(())
}

fn act_on(told: &mut Told, children: &mut Children, verb: &str, n: u32) {
    match verb {
        "start" => start(told, children, MsgNo(n)),
        "crash" => end(told, children, MsgNo(n), true),
        "finish" => end(told, children, MsgNo(n), false),
        "held" => tell_held(told, children),
        "has" => told.flag(slot_of(children, MsgNo(n)).is_some()),
        "slot" => tell_slot(told, children, n),
        "clear" => children.clear(),
        _ => refuse(told),
    }
}

fn start(told: &mut Told, children: &mut Children, no: MsgNo) {
    match children.start(no) {
        Ok(_) => told.add(" started"),
        Err(_) => told.add(" full"),
    }
}

/// Ends a run of the child that has the message.
fn end(told: &mut Told, children: &mut Children, no: MsgNo, crashed: bool) {
    match slot_of(children, no) {
        Some(slot) => tell_end(told, end_run(children, slot, crashed)),
        None => told.add(" none"),
    }
}

fn end_run(children: &mut Children, slot: u16, crashed: bool) -> Option<ChildEnd> {
    children.holds(slot)?;
    Some(children.ended(slot, crashed))
}

fn tell_end(told: &mut Told, end: Option<ChildEnd>) {
    match end {
        Some(ChildEnd::Again) => told.add(" again"),
        Some(ChildEnd::Lost) => told.add(" lost"),
        Some(ChildEnd::Settled) => told.add(" settled"),
        None => refuse(told),
    }
}

/// The slot of the child that has the message.
fn slot_of(children: &Children, no: MsgNo) -> Option<u16> {
    (0..64u16).find(|slot| children.holds(*slot) == Some(no))
}

fn tell_held(told: &mut Told, children: &Children) {
    told.add(" held");
    for slot in 0..64u16 {
        if children.holds(slot).is_some() {
            told.behind(",", u64::from(slot));
        }
    }
}

fn tell_slot(told: &mut Told, children: &Children, slot: u32) {
    let held = u16::try_from(slot)
        .ok()
        .and_then(|slot| children.holds(slot));
    told.found(held.map(|no| no.0));
}
