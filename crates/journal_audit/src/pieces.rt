//! A text judged as it comes.

ghost use Rattle.std.specs.Prelude.{◌≡◌, ◌<◌, ◌≤◌, ◌+◌, ◌^◌, ◌++◌, [], ℕ, List, length, IfOk};
ghost use Rattle.pipe_types.specs.{declared.topology.Topology.{Topology as TopologyOf}, Sound.{IsSound}};
ghost use Rattle.reading_laws.specs.Text.{lines_of};
ghost use Rattle.journal_audit.specs.{Pieces.{Audits, Leads, Takes, header_leads, verdict_on}, Verdicts.{verdict_in, IsSaid}};
ghost use Rattle.journal_audit.specs.declared.{verdict.Verdict.TheVariants.{Bad}, pieces.Progress.TheVariants.{Steps}};

use crate::lines::{LineFound, audit_line};
use crate::summary::summary;
use crate::verdict::{BadCause, Verdict};
use journal_reading::{PlainRun, begin, first_line, is_header};
use pipe_types::topology::Topology;
use std::alloc::{AllocError, Global};
use std::marker::Model;

/// How far an audit is.
#[derive(Clone, Copy)]
pub(crate) enum Progress {
    /// No line has ended yet.
    Header,
    /// The header was read, and each line behind it so far was that of a legal step.
    Steps,
    /// The end line or a bad line was read.
    Found(Verdict),
}

/// An audit of a text that comes in pieces. It keeps the line that has not ended yet, and a run that has the steps so far.
#[derive(Drop)]
pub struct Auditing {
    alloc: Global,
    run: PlainRun,
    progress: Progress,
    begun: Vec<u8>,
    read: u64,
}

impl Model for Auditing {
    ghost use Rattle.std.specs.Prelude.{◌≡◌, ◌<◌, ◌≤◌, ◌^◌, [], length};
    ghost use Rattle.reading_laws.specs.Text.{lines_of};
    ghost use Rattle.journal_audit.specs.AuditSeen.{AuditSeen};

    ghost Value = { AuditSeen };

    ghost view = { λ a. record { topology = a.run.topology; steps = a.run.steps; progress = a.progress; begun = a.begun.items; read = a.read } };

    ghost invariant = { λ a. (lines_of a.begun.items ≡ []) × (length a.run.steps ≤ a.read) × (a.read < 2 ^ 63) };
}

impl Auditing {
    /// The audit of a text of which nothing has come.
    pub fn new(alloc: Global, topology: &Topology) -> Result<Auditing, AllocError>
        requires sound { IsSound topology.now }
        ensures audits { IfOk result (Audits topology.now []) }
        ensures read { IfOk result (λ fresh. fresh.read ≡ 0) }
    {
        Ok(Auditing {
            alloc,
            run: begin(alloc, topology)?,
            progress: Progress::Header,
            begun: Vec::new(alloc),
            read: 0,
        })
    }

    /// How many bytes have come.
    pub fn read(&self) -> u64
        ensures { result ≡ self.now.read }
    {
        self.read
    }

    /// Takes the next piece of the text, and judges the lines that end in it.
    pub fn push(self, piece: &[u8]) -> Result<Auditing, AllocError>
        requires room { self.read + length piece.now < 2 ^ 63 }
        ensures audits { (topology : TopologyOf) (text : List ℕ) → Audits topology text self → IfOk result (Audits topology (text ++ piece.now)) }
        ensures read { IfOk result (λ next. next.read ≡ self.read + length piece.now) }
    {
        let Auditing {
            alloc,
            mut run,
            progress,
            mut begun,
            read,
        } = self;
        let progress = take_piece(alloc, &mut run, progress, &mut begun, piece)?;
        Ok(Auditing {
            alloc,
            run,
            progress,
            begun,
            read: read + piece.len() as u64,
        })
    }

    /// The verdict on the text that has come, where no more is to come.
    pub fn verdict(&self) -> Verdict
        ensures verdict { (topology : TopologyOf) (text : List ℕ) → Audits topology text self.now → result ≡ verdict_in topology text }
        ensures said { (topology : TopologyOf) (text : List ℕ) → IsSound topology → Audits topology text self.now → IsSaid topology text result }
    {
        verdict_here(&self.run, self.progress)
    }
}

/// The verdict where no line is to come.
fn verdict_here(run: &PlainRun, progress: Progress) -> Verdict
    requires few { length run.now.steps < 2 ^ 63 }
    ensures { result ≡ verdict_on run.now.topology run.now.steps progress [] }
{
    match progress {
        Progress::Header => bad(1, BadCause::Header),
        Progress::Steps => bad(run.journal().len() + 2, BadCause::End),
        Progress::Found(verdict) => verdict,
    }
}

/// The verdict of a bad line.
fn bad(line: u64, cause: BadCause) -> Verdict
    ensures { result ≡ Bad line cause }
{
    Verdict::Bad { line, cause }
}

/// Judges the lines that end in the piece, of which the first was begun before. What stands behind them is begun then. Once the
/// verdict is found no more is kept.
fn take_piece(
    alloc: Global,
    run: &mut PlainRun,
    progress: Progress,
    begun: &mut Vec<u8>,
    piece: &[u8],
) -> Result<Progress, AllocError>
    requires unended { lines_of begun.old.items ≡ [] }
    requires room { length run.old.steps + length piece.now < 2 ^ 63 }
    ensures topology { run.new.topology ≡ run.old.topology }
    ensures takes { IfOk result (Takes run.old.topology run.old.steps run.new.steps progress begun.old.items begun.new.items piece.now) }
{
    if let Progress::Found(verdict) = progress {
        return Ok(Progress::Found(verdict));
    }
    let mut next = progress;
    let mut rest = piece;
    while let Some(cut) = first_line(rest) {
        next = end_line(alloc, run, next, begun, cut.front)?;
        rest = cut.rest;
    }
    begun.extend_from_slice(rest)?;
    Ok(next)
}

/// Judges the line that was begun and ends with these bytes.
fn end_line(
    alloc: Global,
    run: &mut PlainRun,
    progress: Progress,
    begun: &mut Vec<u8>,
    end: &[u8],
) -> Result<Progress, AllocError>
    requires few { length run.old.steps < 2 ^ 63 }
    ensures topology { run.new.topology ≡ run.old.topology }
    ensures leads { IfOk result (Leads run.old.topology run.old.steps run.new.steps progress (begun.old.items ++ end.now)) }
    ensures empty { IfOk result (λ _. begun.new.items ≡ []) }
{
    begun.extend_from_slice(end)?;
    let next = judge_line(alloc, run, progress, begun.as_slice())?;
    begun.clear();
    Ok(next)
}

/// How far the audit is behind this line.
fn judge_line(
    alloc: Global,
    run: &mut PlainRun,
    progress: Progress,
    line: &[u8],
) -> Result<Progress, AllocError>
    requires few { length run.old.steps < 2 ^ 63 }
    ensures topology { run.new.topology ≡ run.old.topology }
    ensures leads { IfOk result (Leads run.old.topology run.old.steps run.new.steps progress line.now) }
{
    match progress {
        Progress::Header => Ok(judge_header(line)),
        Progress::Steps => judge_step(alloc, run, line),
        Progress::Found(verdict) => Ok(Progress::Found(verdict)),
    }
}

/// How far it is behind the first line.
fn judge_header(line: &[u8]) -> Progress
    ensures { result ≡ header_leads line.now }
{
    if is_header(line) {
        Progress::Steps
    } else {
        Progress::Found(bad(1, BadCause::Header))
    }
}

/// How far it is behind a further line.
fn judge_step(alloc: Global, run: &mut PlainRun, line: &[u8]) -> Result<Progress, AllocError>
    requires few { length run.old.steps < 2 ^ 63 }
    ensures topology { run.new.topology ≡ run.old.topology }
    ensures leads { IfOk result (Leads run.old.topology run.old.steps run.new.steps Steps line.now) }
{
    let number = run.journal().len() + 2;
    let found = audit_line(alloc, run, line)?;
    match found {
        LineFound::Good => Ok(Progress::Steps),
        LineFound::Last => Ok(Progress::Found(Verdict::Legal(summary(run)))),
        LineFound::Bad(cause) => Ok(Progress::Found(bad(number, cause))),
    }
}
