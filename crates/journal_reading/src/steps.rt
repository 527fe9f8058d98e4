//! A whole text.

ghost use Rattle.std.specs.Prelude.{◌≡◌, ◌++◌, ℕ, List, [], ◌∷◌, true, IfOk, IfErr};
ghost use Rattle.pipe_types.specs.{declared.topology.Topology.{Topology as TopologyOf}, Sound.{IsSound}};
ghost use Rattle.pipe_model.specs.{History.{History}, Legal.{is_legal}};
ghost use Rattle.journal_texts.specs.Steps.{journal_text};
ghost use Rattle.reading_laws.specs.{Fields.{AreHeld, IsCountable}, Text.{lines_of, lines_in, after_header, text_in, IsTextOf}};
ghost use Rattle.journal_reading.specs.{declared.fault.JournalFault.TheVariants.{OutOfMemory}, Faults.{unjudged}, Reads.{Answers, steps_in, IsOf}, OneLine.{ReadsOne}};

use crate::copies::copy_topology;
use crate::fault::{JournalFault, JournalRefusal};
use crate::lines::{first_line, is_header};
use crate::progress::{Progress, journal_of, read_next, take_in};
use crate::step::LineRead;
use pipe_journal::Journal;
use pipe_types::topology::Topology;
use plain_run::PlainRun;
use std::alloc::{AllocError, Global};

/// What a good line leads to.
#[derive(Drop)]
enum Next {
    /// More lines.
    More(Progress),
    /// The whole journal.
    Done(Journal),
}

/// The refusal of this line for this fault.
fn refused(line: u64, fault: JournalFault) -> JournalRefusal
    ensures line { result.line ≡ line }
    ensures fault { result.fault ≡ fault }
{
    JournalRefusal { line, fault }
}

/// Reads one line.
fn read_one(alloc: Global, progress: Progress, line: &[u8]) -> Result<Next, JournalFault>
    ensures { (topology : TopologyOf) → IsOf topology progress → ReadsOne topology (steps_in progress) line.now result }
{
    match read_next(alloc, &progress, line) {
        Ok(LineRead::Step(step)) => match take_in(progress, step) {
            Ok(next) => Ok(Next::More(next)),
            Err(_) => Err(JournalFault::OutOfMemory),
        },
        Ok(LineRead::End) => Ok(Next::Done(journal_of(progress))),
        Ok(LineRead::Bad(fault)) => Err(fault),
        Err(_) => Err(JournalFault::OutOfMemory),
    }
}

/// Reads the lines behind the first, up to the end line or the first bad one.
#[tactic(auto, using(crate::proofs::Reading::bad_on, crate::proofs::Reading::none_on))]
fn read_lines(
    alloc: Global,
    topology: &Topology,
    fresh: Progress,
    text: &[u8],
) -> Result<Journal, JournalRefusal>
    requires of { IsOf topology.now fresh }
    requires fresh { steps_in fresh ≡ [] }
    ensures { Answers result (lines_in unjudged topology.now [] (lines_of text.now)) }
{
    let _topology = topology;
    let mut progress = fresh;
    let mut rest = text;
    let mut line: u64 = 2;
    while let Some(cut) = first_line(rest) {
        match read_one(alloc, progress, cut.front) {
            Ok(Next::More(next)) => {
                progress = next;
                rest = cut.rest;
                line += 1;
            }
            Ok(Next::Done(journal)) => return Ok(journal),
            Err(fault) => return Err(refused(line, fault)),
        }
    }
    Err(refused(line, JournalFault::End))
}

/// A run of a copy of the topology.
pub fn begin(alloc: Global, topology: &Topology) -> Result<PlainRun, AllocError>
    requires sound { IsSound topology.now }
    ensures topology { IfOk result (λ run. run.topology ≡ topology.now) }
    ensures fresh { IfOk result (λ run. run.steps ≡ []) }
{
    match PlainRun::new(alloc, copy_topology(alloc, topology)?) {
        Ok(run) => Ok(run),
        Err((_, failed)) => Err(failed),
    }
}

/// The journal that the text spells, or its first bad line with its first fault. What stands behind the end line is not read.
/// So the text of each journal that is legal for the topology is read back as that journal. The time is linear in the text, and
/// nothing is kept but the journal and, while its steps are legal, a run that has it.
pub fn read_steps(
    alloc: Global,
    topology: &Topology,
    bytes: &[u8],
) -> Result<Journal, JournalRefusal>
    requires sound { IsSound topology.now }
    ensures read { Answers result (text_in unjudged topology.now bytes.now) }
    ensures again { (journal : History) (behind : List ℕ) → is_legal topology.now journal ≡ true → AreHeld journal → IsCountable journal → bytes.now ≡ journal_text journal ++ behind → IfOk result (λ read. read.steps ≡ journal) × IfErr result (λ refusal. refusal.fault ≡ OutOfMemory) }
    ensures found { IfOk result (λ read. IsTextOf read.steps bytes.now) }
{
    read_text(alloc, topology, bytes)
}

/// The same, said once.
fn read_text(alloc: Global, topology: &Topology, bytes: &[u8]) -> Result<Journal, JournalRefusal>
    requires sound { IsSound topology.now }
    ensures { Answers result (text_in unjudged topology.now bytes.now) }
{
    match first_line(bytes) {
        Some(cut) => read_behind(alloc, topology, cut.front, cut.rest),
        None => Err(refused(1, JournalFault::Header)),
    }
}

/// Reads the lines behind this first one.
fn read_behind(
    alloc: Global,
    topology: &Topology,
    first: &[u8],
    rest: &[u8],
) -> Result<Journal, JournalRefusal>
    requires sound { IsSound topology.now }
    ensures { Answers result (after_header unjudged topology.now (first.now ∷ lines_of rest.now)) }
{
    if is_header(first) {
        read_body(alloc, topology, rest)
    } else {
        Err(refused(1, JournalFault::Header))
    }
}

/// Reads the lines behind the header.
fn read_body(alloc: Global, topology: &Topology, rest: &[u8]) -> Result<Journal, JournalRefusal>
    requires sound { IsSound topology.now }
    ensures { Answers result (lines_in unjudged topology.now [] (lines_of rest.now)) }
{
    match begin(alloc, topology) {
        Ok(run) => read_lines(alloc, topology, Progress::Legal(run), rest),
        Err(_) => Err(refused(1, JournalFault::OutOfMemory)),
    }
}
