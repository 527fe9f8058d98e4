//! What a call comes to, and how that is written.

ghost use Rattle.std.specs.Prelude.{◌≡◌, ◌≢◌, ◌⊎◌, ◌≤◌, ◌++◌, true, false, IsTrue, IfOk, option_map};
ghost use Rattle.pipe_types.specs.Counts.{Rose};
ghost use Rattle.run_verdicts.specs.Verdicts.{path_of, refusal_text, refusal_status, acks_in, shown, whole_text, out_text_of, err_text_of, status_in, Adds, AddsPrefix, CanBeShown, FaultBy, IsLogged, QuietBy, UnlessNine};
ghost use Rattle.journal_texts.specs.Steps.{journal_text as text_of_journal};
ghost use Rattle.program_words.specs.Refusals.{memory_line as memory_text};

use crate::audits::{AuditFault, fault_line, fault_status};
use ack_texts::write_acks;
use journal_texts::stream::write_journal;
use pipe_config::{ConfigFault, fault_number};
use pipe_edges::{ByteSink, PutEnd, put_all};
use pipe_journal::Journal;
use pipe_types::bytes::{Bytes, Text};
use pipe_types::topology::Topology;
use program_words::{edge_line, memory_line, stock_line, topology_line, usage_line};
use std::alloc::{AllocError, Global};
use topology_needs::Shortage;

/// Which texts stand before the report.
#[derive(Clone, Copy, Drop)]
pub struct Shows {
    /// The journal.
    pub steps: bool,
    /// The acknowledgements.
    pub acks: bool,
}

/// Why there is no report.
#[derive(Drop)]
pub enum Refusal {
    /// The words are no command.
    Usage,
    /// The file is no topology.
    Topology(ConfigFault),
    /// The stock has too few callbacks of a kind.
    Stock(Shortage),
    /// Nothing of this name was read or opened.
    Edge(Text),
    /// The journal was not found legal.
    Audit(AuditFault),
    Memory,
}

/// What is written to the output: the journal and the acknowledgements, where they are shown, and then the report. Of
/// a topology that is only checked the last text has its counts.
#[derive(Drop)]
pub struct Texts {
    /// Whether the journal stands in front.
    pub steps: bool,
    /// The topology by which the journal acknowledged, where the acknowledgements are shown.
    pub acks: Option<Topology>,
    pub last: Bytes,
}

/// What a call comes to.
#[derive(Drop)]
pub enum Verdict {
    Refused(Refusal),
    Done { texts: Texts, status: u8 },
    /// A run whose sink for live acknowledgements failed: its texts, and the line that names the sink.
    Unfed { texts: Texts, line: Bytes },
}

/// Writes the texts or the refusal, or the texts and then the line of a failed sink, and answers the status: 9 where memory was
/// wanting, 8 where a write failed.
pub fn write_verdict<K: ByteSink>(
    alloc: Global,
    verdict: &Verdict,
    journal: &Journal,
    out: &mut K,
    err: &mut K,
) -> u8
    requires shown { CanBeShown verdict.now journal.now }
    ensures status { (result ≡ status_in verdict.now) ⊎ ((result ≡ 8) ⊎ (result ≡ 9)) }
    ensures wanting { verdict.now ≡ Verdict.Refused Refusal.Memory → result ≡ 9 }
    ensures fault { result ≡ 8 → status_in verdict.now ≢ 8 → FaultBy verdict.now (Rose (K.faults out.old) (K.faults out.new)) (Rose (K.faults err.old) (K.faults err.new)) }
    ensures out { result ≢ 8 → IsTrue (K.told out.old) → Adds (K.held out.old) (K.held out.new) (out_text_of journal.now.steps verdict.now) }
    ensures out_begun { IsTrue (K.told out.old) → AddsPrefix (K.held out.old) (K.held out.new) (out_text_of journal.now.steps verdict.now) }
    ensures nothing { result ≡ 9 → IsTrue (K.told out.old) → UnlessNine verdict.now (K.held out.new ≡ K.held out.old) }
    ensures err { result ≢ 8 → result ≢ 9 → IsTrue (K.told err.old) → Adds (K.held err.old) (K.held err.new) (err_text_of verdict.now) }
    ensures err_begun { IsTrue (K.told err.old) → AddsPrefix (K.held err.old) (K.held err.new) (err_text_of verdict.now) }
    ensures memory { result ≡ 9 → IsTrue (K.told err.old) → AddsPrefix (K.held err.old) (K.held err.new) memory_text }
    ensures quiet { IsTrue (K.told err.old) → QuietBy verdict.now (K.held err.new ≡ K.held err.old) }
{
    match verdict {
        Verdict::Done { texts, status } => put_texts(alloc, out, texts, journal, *status),
        Verdict::Unfed { texts, line } => put_unfed(alloc, out, err, texts, journal, line),
        Verdict::Refused(refusal) => match refusal_line(alloc, refusal) {
            Ok(line) => put_line(err, &line, status_of(refusal)),
            Err(_) => 9,
        },
    }
}

/// Writes the texts, and then the line to the error output, and answers 12, or 8 where a write failed; behind a text that was
/// not written whole no line is written.
fn put_unfed<K: ByteSink>(
    alloc: Global,
    out: &mut K,
    err: &mut K,
    texts: &Texts,
    journal: &Journal,
    line: &Bytes,
) -> u8
    requires logged { IsLogged texts.now.acks journal.now }
    ensures status { (result ≡ 12) ⊎ (result ≡ 8) }
    ensures fault { result ≡ 8 → Rose (K.faults out.old) (K.faults out.new) ⊎ Rose (K.faults err.old) (K.faults err.new) }
    ensures out { result ≢ 8 → IsTrue (K.told out.old) → Adds (K.held out.old) (K.held out.new) (whole_text journal.now.steps texts.now) }
    ensures out_begun { IsTrue (K.told out.old) → AddsPrefix (K.held out.old) (K.held out.new) (whole_text journal.now.steps texts.now) }
    ensures err { result ≢ 8 → IsTrue (K.told err.old) → Adds (K.held err.old) (K.held err.new) line.now }
    ensures err_begun { IsTrue (K.told err.old) → AddsPrefix (K.held err.old) (K.held err.new) line.now }
{
    if put_texts(alloc, out, texts, journal, 12) == 8 {
        return 8;
    }
    put_text(err, line, 12)
}

/// Writes the texts in their order, each by itself, and answers the status, or 8 where the sink failed.
fn put_texts<K: ByteSink>(
    alloc: Global,
    sink: &mut K,
    texts: &Texts,
    journal: &Journal,
    status: u8,
) -> u8
    requires logged { IsLogged texts.now.acks journal.now }
    ensures status { (result ≡ status) ⊎ (result ≡ 8) }
    ensures fault { result ≡ 8 → (status ≡ 8) ⊎ Rose (K.faults sink.old) (K.faults sink.new) }
    ensures whole { result ≢ 8 → IsTrue (K.told sink.old) → Adds (K.held sink.old) (K.held sink.new) (whole_text journal.now.steps texts.now) }
    ensures begun { IsTrue (K.told sink.old) → AddsPrefix (K.held sink.old) (K.held sink.new) (whole_text journal.now.steps texts.now) }
{
    if !put_steps(alloc, sink, texts.steps, journal) {
        return 8;
    }
    if !put_acks(alloc, sink, &texts.acks, journal) {
        return 8;
    }
    put_text(sink, &texts.last, status)
}

/// Writes the journal, if it is shown, and answers whether all of it was written.
fn put_steps<K: ByteSink>(alloc: Global, sink: &mut K, is_shown: bool, journal: &Journal) -> bool
    ensures told { K.told sink.new ≡ K.told sink.old }
    ensures stay { K.faults sink.old ≤ K.faults sink.new }
    ensures fault { result ≡ false → Rose (K.faults sink.old) (K.faults sink.new) }
    ensures whole { result ≡ true → IsTrue (K.told sink.old) → Adds (K.held sink.old) (K.held sink.new) (shown is_shown (text_of_journal journal.now.steps)) }
    ensures begun { IsTrue (K.told sink.old) → AddsPrefix (K.held sink.old) (K.held sink.new) (shown is_shown (text_of_journal journal.now.steps)) }
{
    if is_shown {
        write_journal(alloc, sink, journal)
    } else {
        true
    }
}

/// Writes the acknowledgements, if they are shown, and answers whether all of them were written.
fn put_acks<K: ByteSink>(
    alloc: Global,
    sink: &mut K,
    acks: &Option<Topology>,
    journal: &Journal,
) -> bool
    requires logged { IsLogged acks.now journal.now }
    ensures told { K.told sink.new ≡ K.told sink.old }
    ensures stay { K.faults sink.old ≤ K.faults sink.new }
    ensures fault { result ≡ false → Rose (K.faults sink.old) (K.faults sink.new) }
    ensures whole { result ≡ true → IsTrue (K.told sink.old) → Adds (K.held sink.old) (K.held sink.new) (acks_in acks.now journal.now.steps) }
    ensures begun { IsTrue (K.told sink.old) → AddsPrefix (K.held sink.old) (K.held sink.new) (acks_in acks.now journal.now.steps) }
{
    match acks {
        None => true,
        Some(topology) => write_acks(alloc, sink, topology, journal),
    }
}

/// Writes a text, and answers the status, or 8 where the sink failed.
fn put_text<K: ByteSink>(sink: &mut K, text: &Bytes, status: u8) -> u8
    ensures status { (result ≡ status) ⊎ (result ≡ 8) }
    ensures fault { result ≡ 8 → (status ≡ 8) ⊎ Rose (K.faults sink.old) (K.faults sink.new) }
    ensures whole { result ≢ 8 → IsTrue (K.told sink.old) → Adds (K.held sink.old) (K.held sink.new) text.now }
    ensures begun { IsTrue (K.told sink.old) → AddsPrefix (K.held sink.old) (K.held sink.new) text.now }
{
    match put_all(sink, text) {
        PutEnd::All => status,
        PutEnd::Failed(_) => 8,
    }
}

/// Writes the line of a refusal, and answers its status, or 8 where the sink failed; want of memory stays 9.
fn put_line<K: ByteSink>(sink: &mut K, line: &Bytes, status: u8) -> u8
    ensures status { (result ≡ status) ⊎ (result ≡ 8) }
    ensures wanting { status ≡ 9 → result ≡ 9 }
    ensures fault { result ≡ 8 → (status ≡ 8) ⊎ Rose (K.faults sink.old) (K.faults sink.new) }
    ensures whole { result ≢ 8 → result ≢ 9 → IsTrue (K.told sink.old) → Adds (K.held sink.old) (K.held sink.new) line.now }
    ensures begun { IsTrue (K.told sink.old) → AddsPrefix (K.held sink.old) (K.held sink.new) line.now }
{
    match put_all(sink, line) {
        PutEnd::All => status,
        PutEnd::Failed(_) => { if status == 9 { 9 } else { 8 } }
    }
}

fn status_of(refusal: &Refusal) -> u8
    ensures { result ≡ refusal_status refusal.now }
{
    match refusal {
        Refusal::Usage => 7,
        Refusal::Topology(_) | Refusal::Stock(_) => 6,
        Refusal::Edge(_) => 5,
        Refusal::Audit(fault) => fault_status(*fault),
        Refusal::Memory => 9,
    }
}

fn refusal_line(alloc: Global, refusal: &Refusal) -> Result<Bytes, AllocError>
    ensures { IfOk result (λ line. line ≡ refusal_text refusal.now) }
{
    match refusal {
        Refusal::Usage => usage_line(alloc),
        Refusal::Topology(fault) => topology_line(alloc, fault_number(fault), path_in(fault)),
        Refusal::Stock(shortage) => {
            stock_line(alloc, shortage.kind, shortage.need, shortage.have)
        }
        Refusal::Edge(name) => edge_line(alloc, name.as_str()),
        Refusal::Audit(fault) => fault_line(alloc, *fault),
        Refusal::Memory => memory_line(alloc),
    }
}

/// The place in the file that the fault names.
fn path_in(fault: &ConfigFault) -> Option<&str>
    ensures { option_map (λ path. path.now) result ≡ path_of fault.now }
{
    match fault {
        ConfigFault::NotToml
        | ConfigFault::NoStage
        | ConfigFault::TooManyStages
        | ConfigFault::OutOfMemory => None,
        ConfigFault::Version(path)
        | ConfigFault::UnknownKey(path)
        | ConfigFault::Missing(path)
        | ConfigFault::WrongType(path)
        | ConfigFault::OutOfRange(path)
        | ConfigFault::DuplicateName(path)
        | ConfigFault::UnknownBatcher(path)
        | ConfigFault::BadDispatch(path)
        | ConfigFault::Unreachable(path) => Some(path.as_str()),
    }
}
