//! What an audit writes.

ghost use Rattle.std.specs.Prelude.{◌≡◌, ◌++◌, IfOk, OnOk, string_bytes};
ghost use Rattle.journal_texts.specs.Report.{count_line};
ghost use Rattle.run_verdicts.specs.Audits as text;

use journal_audit::{BadCause, Summary};
use pipe_types::bytes::Bytes;
use std::alloc::{AllocError, Global};

/// Why a journal was not found legal: its first bad line, from 1, with the cause; more bytes than are read; nothing ready; or a
/// read that failed.
#[derive(Clone, Copy, PartialEq, Eq)]
pub enum AuditFault {
    Line { line: u64, cause: BadCause },
    Large,
    Wait,
    Source,
}

/// What the steps of a legal journal come to: a line for the steps with the word `drained`, `halted` or `open`, and one for each
/// count.
pub fn legal_text(alloc: Global, summary: &Summary) -> Result<Bytes, AllocError>
    ensures { IfOk result (λ written. written ≡ text.legal_text summary.now) }
{
    let word = end_word(summary);
    counts_text(alloc, word, summary)
}

/// The same, with this word.
fn counts_text(alloc: Global, word: &str, summary: &Summary) -> Result<Bytes, AllocError>
    ensures { IfOk result (λ written. written ≡ text.counts_text word.now summary.now) }
{
    let mut out = Vec::new(alloc);
    put_legal(alloc, &mut out, summary.steps, word)?;
    put_counts(alloc, &mut out, summary)?;
    Ok(Bytes::from_vec(out))
}

/// Writes how many steps there are, and the word.
#[tactic(auto, using(std::proofs::lemmas::List::append_assoc))]
fn put_legal(alloc: Global, out: &mut Vec<u8>, steps: u64, word: &str) -> Result<(), AllocError>
    ensures { OnOk result (out.new.items ≡ out.old.items ++ text.legal_line steps word.now) }
{
    let line = format!(in alloc; "legal {steps} {word}\n")?;
    put(out, &line)
}

/// Writes the counts of messages, a line each.
#[tactic(auto, using(std::proofs::lemmas::List::append_assoc))]
fn put_counts(alloc: Global, out: &mut Vec<u8>, summary: &Summary) -> Result<(), AllocError>
    ensures { OnOk result (out.new.items ≡ out.old.items ++ text.count_lines summary.now) }
{
    put_count(alloc, out, "accepted", summary.accepted)?;
    put_count(alloc, out, "successful", summary.successful)?;
    put_count(alloc, out, "failed", summary.failed)?;
    put_count(alloc, out, "lost", summary.lost)
}

/// Writes a count behind its word.
#[tactic(auto, using(std::proofs::lemmas::List::append_assoc))]
fn put_count(alloc: Global, out: &mut Vec<u8>, word: &str, n: u32) -> Result<(), AllocError>
    ensures { OnOk result (out.new.items ≡ out.old.items ++ count_line word.now n) }
{
    let line = format!(in alloc; "{word} {n}\n")?;
    put(out, &line)
}

fn put(out: &mut Vec<u8>, text: &str) -> Result<(), AllocError>
    ensures { OnOk result (out.new.items ≡ out.old.items ++ text.now) }
{
    out.extend_from_slice(text.as_bytes())
}

fn end_word(summary: &Summary) -> &'static str
    ensures { result.now ≡ text.end_word summary.now }
{
    if summary.drained {
        return "drained";
    }
    if summary.halted {
        return "halted";
    }
    "open"
}

/// The line of the fault, and nothing where a read failed.
pub(crate) fn fault_line(alloc: Global, fault: AuditFault) -> Result<Bytes, AllocError>
    ensures { IfOk result (λ line. line ≡ text.fault_line fault) }
{
    match fault {
        AuditFault::Line { line, cause } => line_text(alloc, line, cause_word(cause)),
        AuditFault::Large => copy_of(alloc, "audit large\n"),
        AuditFault::Wait => copy_of(alloc, "audit wait\n"),
        AuditFault::Source => Ok(Bytes::from_vec(Vec::new(alloc))),
    }
}

#[tactic(auto, using(std::proofs::lemmas::List::append_assoc))]
fn line_text(alloc: Global, line: u64, word: &str) -> Result<Bytes, AllocError>
    ensures { IfOk result (λ written. written ≡ text.line_text line word.now) }
{
    bytes_of(format!(in alloc; "audit line {line} {word}\n")?)
}

fn cause_word(cause: BadCause) -> &'static str
    ensures { result.now ≡ text.cause_word cause }
{
    match cause {
        BadCause::Header => "header",
        BadCause::Word => "word",
        BadCause::Number => "number",
        BadCause::Bytes => "bytes",
        BadCause::End => "end",
        BadCause::Step => "step",
    }
}

pub(crate) fn fault_status(fault: AuditFault) -> u8
    ensures { result ≡ text.fault_status fault }
{
    match fault {
        AuditFault::Line { .. } | AuditFault::Large | AuditFault::Wait => 11,
        AuditFault::Source => 4,
    }
}

fn copy_of(alloc: Global, line: &str) -> Result<Bytes, AllocError>
    ensures { IfOk result (λ copy. copy ≡ line.now) }
{
    Ok(Bytes::from_vec(Vec::from_slice(alloc, line.as_bytes())?))
}

fn bytes_of(line: String) -> Result<Bytes, AllocError>
    ensures { IfOk result (λ bytes. bytes ≡ string_bytes line) }
{
    Ok(Bytes::from_vec(line.into_bytes()))
}
