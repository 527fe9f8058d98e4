//! The journal of an audit.

ghost use Rattle.std.specs.Prelude.{◌≡◌, List, ℕ, length, IfOk};
ghost use Rattle.pipe_types.specs.Sound.{IsSound};
ghost use Rattle.pipe_edges.specs.{declared.edges.EdgeKind.TheVariants.{Source}, Reads.{ReadIsCounted}};
ghost use Rattle.edge_names.specs.Named.{GivesSource, Opens, BacksSource};
ghost use Rattle.run_verdicts.specs.Verdicts.{CanBeShown};
ghost use Rattle.pipe_top.specs.{Audits.{found_by, ReadOnce}, Flows.{IsAuditedOrNot, ReadsSource, JudgesSource, JudgesOpened, ReadsJournal}};

use crate::file::text_of;
use crate::run::{Ran, refused};
use edge_names::{SeenEdges, SeenSource};
use pipe_edges::{ByteSource, EdgeEnd, Edges, ReadEnd};
use pipe_journal::Journal;
use pipe_types::bytes::Text;
use pipe_types::topology::Topology;
use run_verdicts::{AuditFault, Auditing, Judgement, Refusal, Summary, Texts, Verdict, legal_text};
use std::alloc::{AllocError, Global};

/// As many bytes as a journal may have.
const MOST_BYTES: u64 = 268_435_456;

/// As many bytes as a read is offered.
const PIECE: usize = 8192;

/// What a verdict comes to.
fn found(verdict: Judgement) -> Result<Summary, AuditFault>
    ensures { result ≡ found_by verdict }
{
    match verdict {
        Judgement::Legal(summary) => Ok(summary),
        Judgement::Bad { line, cause } => Err(AuditFault::Line { line, cause }),
    }
}

/// Reads once from the source into the piece.
fn read_piece<B: ByteSource>(source: &mut B, piece: &mut Vec<u8>) -> ReadEnd
    requires room { length piece.old.items ≡ 8192 }
    ensures room { length piece.new.items ≡ 8192 }
    ensures counted { ReadIsCounted 8192 result }
    ensures read { ReadOnce (⟦<B as SeenSource>⟧.seen source.old) (⟦<B as SeenSource>⟧.seen source.new) piece.new.items result }
{
    source.read(piece)
}

/// Reads the source to its end, each time into one piece, and judges the lines as they come. It keeps the line that has not ended
/// and no other text. What the lines come to is told only behind the last of them.
fn read_source<B: ByteSource>(
    alloc: Global,
    topology: &Topology,
    source: &mut B,
) -> Result<Result<Summary, AuditFault>, AllocError>
    requires sound { IsSound topology.now }
    ensures { IfOk result (λ end. ReadsSource end topology.now (⟦<B as SeenSource>⟧.seen source.old) (⟦<B as SeenSource>⟧.seen source.new)) }
{
    let mut audit = Auditing::new(alloc, topology)?;
    let mut piece = Vec::new(alloc);
    piece.resize(PIECE, 0)?;
    loop {
        match read_piece(source, &mut piece) {
            ReadEnd::Got(n) => {
                if audit.read() + n as u64 > MOST_BYTES {
                    return Ok(Err(AuditFault::Large));
                }
                audit = audit.push(&piece[..n])?;
            }
            ReadEnd::End => return Ok(found(audit.verdict())),
            ReadEnd::Failed => return Ok(Err(AuditFault::Source)),
            ReadEnd::Empty => return Ok(Err(AuditFault::Wait)),
        }
    }
}

/// The same, as a refusal.
fn judge_source<B: ByteSource>(
    alloc: Global,
    topology: &Topology,
    source: &mut B,
) -> Result<Summary, Refusal>
    requires sound { IsSound topology.now }
    ensures { JudgesSource topology.now (⟦<B as SeenSource>⟧.seen source.old) (⟦<B as SeenSource>⟧.seen source.new) result }
{
    match read_source(alloc, topology, source) {
        Ok(Ok(summary)) => Ok(summary),
        Ok(Err(fault)) => Err(Refusal::Audit(fault)),
        Err(_) => Err(Refusal::Memory),
    }
}

/// Opens the source of this name.
fn open_source<E: Edges>(name: &Text, edges: &mut E) -> Result<E::Source, EdgeEnd>
    ensures opens { Opens Source name.now (⟦<E as SeenEdges>⟧.seen edges.old) (⟦<E as SeenEdges>⟧.seen edges.new) result }
    ensures given { IfOk result (λ s. GivesSource (⟦<E as SeenEdges>⟧.seen edges.old) name.now (⟦<E::Source as SeenSource>⟧.seen s)) }
{
    edges.open_source(name)
}

/// Gives a source back under its name.
fn back_source<E: Edges>(name: &Text, source: E::Source, edges: &mut E) -> Result<(), AllocError>
    ensures { BacksSource name.now (⟦<E::Source as SeenSource>⟧.seen source) (⟦<E as SeenEdges>⟧.seen edges.old) (⟦<E as SeenEdges>⟧.seen edges.new) result }
{
    edges.back_source(name, source)
}

/// Judges the journal that the source holds, and gives the source back.
fn judge_opened<E: Edges>(
    alloc: Global,
    topology: &Topology,
    name: &Text,
    source: E::Source,
    edges: &mut E,
) -> Result<Summary, Refusal>
    requires sound { IsSound topology.now }
    ensures { JudgesOpened name.now topology.now (⟦<E::Source as SeenSource>⟧.seen source) (⟦<E as SeenEdges>⟧.seen edges.old) (⟦<E as SeenEdges>⟧.seen edges.new) result }
{
    let mut source = source;
    let found = judge_source(alloc, topology, &mut source);
    match back_source(name, source, edges) {
        Ok(()) => found,
        Err(_) => Err(Refusal::Memory),
    }
}

/// What the journal of this name comes to, which is opened, read and given back.
pub(crate) fn audit_named<E: Edges>(
    alloc: Global,
    name: &str,
    topology: &Topology,
    edges: &mut E,
) -> Result<Summary, Refusal>
    requires sound { IsSound topology.now }
    ensures { ReadsJournal (⟦<E as SeenEdges>⟧.seen edges.old) (⟦<E as SeenEdges>⟧.seen edges.new) name.now topology.now result }
{
    let Ok(name) = text_of(alloc, name) else {
        return Err(Refusal::Memory);
    };
    match open_source(&name, edges) {
        Ok(source) => judge_opened(alloc, topology, &name, source, edges),
        Err(EdgeEnd::Failed) => Err(Refusal::Edge(name)),
        Err(EdgeEnd::OutOfMemory) => Err(Refusal::Memory),
    }
}

/// What a legal journal comes to.
pub(crate) fn audited<C, K>(
    alloc: Global,
    topology: Topology,
    summary: &Summary,
    stock: Vec<C>,
    clock: K,
) -> Ran<C, K>
    requires sound { IsSound topology }
    ensures same_boxes { result.stock.items ≡ stock.items }
    ensures same_clock { result.clock ≡ clock }
    ensures shown { CanBeShown result.verdict result.journal }
    ensures audited { IsAuditedOrNot summary.now topology result.topology result.journal.steps result.verdict }
{
    match legal_text(alloc, summary) {
        Ok(last) => Ran {
            verdict: Verdict::Done {
                texts: Texts {
                    steps: false,
                    acks: None,
                    last,
                },
                status: 0,
            },
            topology: Some(topology),
            journal: Journal::new(alloc),
            stock,
            clock,
        },
        Err(_) => refused(alloc, Refusal::Memory, stock, clock),
    }
}
