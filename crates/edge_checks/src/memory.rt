//! Sources, sinks and clocks in memory.

ghost use Rattle.std.specs.Prelude.{IfOk};
ghost use Rattle.mem_edges.specs.{MemSource.{IsUnread}, MemSink.{IsUnwritten}};

use super::stories::{story, tell_read};
use super::texts::{bytes_of, count, halves, number};
use mem_edges::{MemClock, MemSink, MemSource, SinkAct, SinkScript, SourceAct, SourceScript};
use pipe_edges::{
    ByteSink, ByteSource, Clock, Fetched, LineSource, PutEnd, ReadEnd, WriteEnd, put_all,
};
use std::alloc::{AllocError, Global};
use told_text::Told;

/// The source of these bytes, with a script: a number gives so many bytes, `wait` nothing yet, `fail` fails.
pub fn source_of(alloc: Global, bytes: &str, acts: &str) -> Result<MemSource, AllocError>
    ensures { IfOk result IsUnread }
{
    let script = source_script(alloc, acts)?;
    Ok(MemSource::new(bytes_of(alloc, bytes)?, script))
}

fn source_script(alloc: Global, acts: &str) -> Result<SourceScript, AllocError> {
    let mut script = Vec::new(alloc);
    for word in acts.split_whitespace() {
        script.push(source_act(word))?;
    }
    Ok(SourceScript::from_vec(script))
}

fn source_act(word: &str) -> SourceAct {
    match word {
        "wait" => SourceAct::Wait,
        "fail" => SourceAct::Fail,
        _ => SourceAct::Give(number(word)),
    }
}

/// The sink that holds these bytes, with room for so many more and a script: a number takes so many, `fail` fails.
pub fn sink_of(alloc: Global, held: &str, room: usize, acts: &str) -> Result<MemSink, AllocError>
    ensures { IfOk result IsUnwritten }
{
    let script = sink_script(alloc, acts)?;
    MemSink::new(bytes_of(alloc, held)?, room, script)
}

fn sink_script(alloc: Global, acts: &str) -> Result<SinkScript, AllocError> {
    let mut script = Vec::new(alloc);
    for word in acts.split_whitespace() {
        script.push(sink_act(word))?;
    }
    Ok(SinkScript::from_vec(script))
}

fn sink_act(word: &str) -> SinkAct {
    match word {
        "fail" => SinkAct::Fail,
        _ => SinkAct::Take(number(word)),
    }
}

/// `lines MOST BYTES ACTS..`: what fetches of at most so many records come to.
pub fn lines(told: &mut Told, acts: &str) -> Result<(), AllocError> {
    let (most, rest) = halves(acts);
    let (bytes, acts) = halves(rest);
    let source = source_of(told.alloc, bytes, acts)?;
    story(told, source, count(most), "?");
    Ok(())
}

/// `put ROOM ACTS..`: what comes of `hello` at a sink that holds `> `, and what it holds then.
pub fn put(told: &mut Told, acts: &str) -> Result<(), AllocError> {
    let (room, acts) = halves(acts);
    let mut sink = sink_of(told.alloc, ">^", number(room), acts)?;
    put_hello(told, &mut sink)?;
    tell_held(told, &sink);
    Ok(())
}

fn put_hello<K: ByteSink>(told: &mut Told, sink: &mut K) -> Result<(), AllocError> {
    let hello = bytes_of(told.alloc, "hello")?;
    match put_all(sink, &hello) {
        PutEnd::All => told.add(" all"),
        PutEnd::Failed(n) => {
            told.add(" failed:");
            told.number(n as u64);
        }
    }
    Ok(())
}

/// Tells what the sink holds.
pub fn tell_held(told: &mut Told, sink: &MemSink) {
    told.add(" ");
    told.spelled(sink.held());
}

/// `clock AT STEP NAP ACTS..`: the readings, `now`, of a clock that is paused between them; the latest and their number.
pub fn clock(told: &mut Told, acts: &str) {
    let (at, rest) = halves(acts);
    let (step, rest) = halves(rest);
    let (nap, acts) = halves(rest);
    let mut clock = MemClock {
        at: millis(at),
        step: millis(step),
        nap: millis(nap),
        latest: 0,
        readings: 0,
        pauses: 0,
    };
    for act in acts.split_whitespace() {
        if act == "now" {
            told.count(clock.now());
        } else {
            clock.pause();
        }
    }
    told.add(" latest:");
    told.number(clock.latest);
    told.add(" readings:");
    told.number(clock.readings);
}

fn millis(word: &str) -> u64 {
    word.parse::<u64>().unwrap_or(0)
}

/// `again`: two fetches of a source whose first read fails, and two reads of the source itself.
pub fn again(told: &mut Told) -> Result<(), AllocError> {
    let source = source_of(told.alloc, "a", "fail")?;
    match LineSource::new(told.alloc, source) {
        Ok(mut lines) => {
            tell_fault(told, &mut lines);
            tell_fault(told, &mut lines);
            read_twice(told, &mut lines.into_inner());
        }
        Err(_) => told.add(" no memory"),
    }
    Ok(())
}

fn tell_fault<B: ByteSource>(told: &mut Told, lines: &mut LineSource<B>) {
    told.flag(matches!(lines.fetch(1), Ok(Fetched::Fault)));
}

/// Tells two reads of at most four bytes.
pub fn read_twice<B: ByteSource>(told: &mut Told, source: &mut B) {
    let mut piece = [0; 4];
    tell_read(told, source.read(&mut piece));
    tell_read(told, source.read(&mut piece));
}

// Notes how many bytes each call is offered: a source of three bytes, and a sink that takes two at most.
#[derive(Drop)]
struct Offers {
    offers: Vec<usize>,
}

impl ByteSource for Offers {
    ghost use Rattle.std.specs.Prelude.{false, []};

    ghost told = { λ _. false };

    ghost taken = { λ _. [] };

    ghost left = { λ _. [] };

    ghost faults = { λ _. 0 };

    ghost waits = { λ _. 0 };

    fn read(&mut self, piece: &mut [u8]) -> ReadEnd {
        let _ = self.offers.push(piece.len());
        if self.offers.len() > 3 {
            return ReadEnd::End;
        }
        ReadEnd::Got(1)
    }

    fn at(&mut self, now: u64) {
        let _ = now;
    }
}

impl ByteSink for Offers {
    ghost use Rattle.std.specs.Prelude.{false, []};

    ghost told = { λ _. false };

    ghost held = { λ _. [] };

    ghost faults = { λ _. 0 };

    fn write(&mut self, piece: &[u8]) -> WriteEnd {
        let _ = self.offers.push(piece.len());
        WriteEnd::Took(piece.len().min(2))
    }
}

/// `offers`: what each read of a fetch is offered, and each write of `hello`.
pub fn each_offer(told: &mut Told) -> Result<(), AllocError> {
    match LineSource::new(told.alloc, no_offers(told.alloc)) {
        Ok(mut lines) => {
            told.flag(matches!(lines.fetch(1), Ok(Fetched::Records(_))));
            tell_offers(told, &lines.into_inner());
        }
        Err(_) => told.add(" no memory"),
    }
    let mut sink = no_offers(told.alloc);
    put_hello(told, &mut sink)?;
    tell_offers(told, &sink);
    Ok(())
}

fn no_offers(alloc: Global) -> Offers {
    Offers {
        offers: Vec::new(alloc),
    }
}

fn tell_offers(told: &mut Told, noted: &Offers) {
    for offer in &noted.offers {
        told.count(*offer as u64);
    }
}
