//! The units that wait in a stage.
//!
//! Begins with `PARTS:SIZE:KEEP`, the end that is kept being `first` or `last`. The acts are `push=PART:UNIT`; `over`, the
//! unit that goes over the size; `take=PART` and `front=PART`, the first unit of a part; `len`; and `parts`, in order.

ghost use Rattle.std.specs.Prelude.{◌≡◌};

use crate::words::{Case, cut, item, number, refuse};
use pipe_types::topology::Keep;
use stage_buffer::Buffer;
use std::alloc::{AllocError, Global};
use told_text::Told;

/// No case has more units.
const MOST: u64 = 1_000_000;

/// A buffer, how many parts it has, and how many units arrived.
#[derive(Drop)]
struct Held {
    buffer: Buffer<u32>,
    parts: u32,
    arrived: u64,
    ghost all_parts: { buffer.parts ≡ parts },
    ghost all_arrived: { buffer.arrived ≡ arrived },
}

pub fn run(told: &mut Told, case: &Case<'_>) -> Result<(), AllocError> {
    let mut held = begin(told.alloc, case.begun)?;
    for act in case.acts.split_whitespace() {
        let (verb, rest) = cut(act, '=');
        if verb == "push" {
            held = push(told, held, number(item(rest, 0)), number(item(rest, 1)))?;
        } else {
            ask(told, &mut held, verb, number(rest))?;
        }
    }
    Ok(())
}

fn begin(alloc: Global, begun: &str) -> Result<Held, AllocError> {
    let parts = number(item(begun, 0));
    let keep = if item(begun, 2) == "first" {
        Keep::First
    } else {
        Keep::Last
    };
    let buffer = Buffer::new(alloc, parts, Some(number(item(begun, 1))), keep)?;
    Ok(Held {
        buffer,
        parts,
        arrived: 0,
    })
}

fn push(told: &mut Told, held: Held, part: u32, unit: u32) -> Result<Held, AllocError> {
    let Held {
        mut buffer,
        parts,
        arrived,
    } = held;
    if part >= parts || arrived >= MOST || u64::from(buffer.len()) >= MOST {
        refuse(told);
        return Ok(Held {
            buffer,
            parts,
            arrived,
        });
    }
    buffer.reserve(part, 1)?;
    buffer.push(part, unit);
    Ok(Held {
        buffer,
        parts,
        arrived: arrived + 1,
    })
}

fn ask(told: &mut Told, held: &mut Held, verb: &str, part: u32) -> Result<(), AllocError> {
    match verb {
        "over" => told.found(held.buffer.over()),
        "take" => told.found(held.buffer.take(part)),
        "front" => told.found(held.buffer.front(part).copied()),
        "len" => told.count(u64::from(held.buffer.len())),
        "parts" => tell_parts(told, &held.buffer)?,
        _ => refuse(told),
    }
    Ok(())
}

fn tell_parts(told: &mut Told, buffer: &Buffer<u32>) -> Result<(), AllocError> {
    let parts = buffer.parts()?;
    told.add(" parts");
    for part in parts.as_slice() {
        told.behind(",", u64::from(*part));
    }
    Ok(())
}
