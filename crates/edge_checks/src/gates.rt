//! The lines of a source in its gate.

use super::memory::source_of;
use super::stories::tell_fetch;
use super::texts::{count, halves, number};
use mem_edges::MemSource;
use pipe_edges::LineSource;
use rate_gate::{Gate, GatedSource};
use std::alloc::AllocError;
use told_text::Told;

/// `gate SHARE INTERVAL MOMENTS BYTES ACTS..`: what fetches come to, one at each of the moments, which commas part. The share
/// `no` is no gate.
pub fn gate(told: &mut Told, acts: &str) -> Result<(), AllocError> {
    let (share, rest) = halves(acts);
    let (interval, rest) = halves(rest);
    let (moments, rest) = halves(rest);
    let (bytes, acts) = halves(rest);
    let source = source_of(told.alloc, bytes, acts)?;
    match GatedSource::new(told.alloc, source, gate_of(share, interval)) {
        Ok(gated) => tell_gated(told, gated, moments),
        Err(_) => told.add(" no memory"),
    }
    Ok(())
}

fn gate_of(share: &str, interval: &str) -> Option<Gate> {
    match share {
        "no" => None,
        _ => Some(Gate::new(count(share), u64::from(count(interval)))),
    }
}

fn tell_gated(told: &mut Told, gated: GatedSource<MemSource>, moments: &str) {
    match LineSource::new(told.alloc, gated) {
        Ok(mut lines) => {
            told.add(" ");
            for moment in moments.split(',') {
                lines.at(number(moment) as u64);
                if !tell_fetch(told, &mut lines, 4, "?") {
                    break;
                }
            }
        }
        Err(_) => told.add(" no memory"),
    }
}
