//! The control source by its name, to be read by lines.

ghost use Rattle.std.specs.Prelude.{◌≡◌, ◌∷◌, [], IfOk, IfErr, OnOk, OnErr};
ghost use Rattle.pipe_edges.specs.declared.edges.EdgeKind.TheVariants.{Source};
ghost use Rattle.stage_bodies.specs.Seen.{line_seen};
ghost use Rattle.edge_names.specs.Opened.{Asks, GivesLines, fresh_lines, IfCutOff, IfFailed, IsOneCut, IsOneFailed, IsReturned};

use crate::names::copy_text;
use crate::opening::Unopened;
use crate::seen::{SeenEdges, SeenSource, back_source, open_control_source};
use pipe_edges::{ByteSource, EdgeEnd, Edges, LineSource};
use pipe_types::bytes::Text;
use std::alloc::{AllocError, Global};

/// Opens the control source of this name, to be read by lines.
pub(crate) fn open_lines<E: Edges>(
    alloc: Global,
    name: &Text,
    edges: &mut E,
) -> Result<LineSource<E::Source>, Unopened>
    ensures asks { OnOk result (Asks ((Source, name.now) ∷ []) (⟦<E as SeenEdges>⟧.seen edges.old) (⟦<E as SeenEdges>⟧.seen edges.new)) }
    ensures gives { IfOk result (λ lines. GivesLines (⟦<E as SeenEdges>⟧.seen edges.old) name.now
        (line_seen E.Source.ByteSource lines)) }
    ensures failed { IfErr result (λ e. IfFailed e (λ n. IsOneFailed ((Source, name.now) ∷ []) n (⟦<E as SeenEdges>⟧.seen edges.old) (⟦<E as SeenEdges>⟧.seen edges.new))) }
    ensures cut_off { IfErr result (λ e. IfCutOff e (IsOneCut ((Source, name.now) ∷ []) (⟦<E as SeenEdges>⟧.seen edges.old) (⟦<E as SeenEdges>⟧.seen edges.new))) }
{
    let Ok(source_name) = copy_text(alloc, name.as_str()) else {
        return Err(Unopened::OutOfMemory);
    };
    match open_control_source(name, edges) {
        Ok(source) => match lines_of(alloc, name, source, edges) {
            Ok(lines) => Ok(lines),
            Err(AllocError) => Err(Unopened::OutOfMemory),
        },
        Err(EdgeEnd::Failed) => Err(Unopened::Failed(source_name)),
        Err(EdgeEnd::OutOfMemory) => Err(Unopened::OutOfMemory),
    }
}

/// The source, to be read by lines. For want of memory it goes back under its name, as far as there is memory for that.
fn lines_of<E: Edges>(
    alloc: Global,
    name: &Text,
    source: E::Source,
    edges: &mut E,
) -> Result<LineSource<E::Source>, AllocError>
    ensures lines { IfOk result (λ lines. line_seen E.Source.ByteSource lines
        ≡ fresh_lines (⟦<E::Source as SeenSource>⟧.seen source)) }
    ensures untouched { OnOk result (edges.new ≡ edges.old) }
    ensures returned { OnErr result (IsReturned name.now (⟦<E::Source as SeenSource>⟧.seen source) (⟦<E as SeenEdges>⟧.seen edges.old) (⟦<E as SeenEdges>⟧.seen edges.new)) }
{
    match LineSource::new(alloc, source) {
        Ok(lines) => Ok(lines),
        Err((source, error)) => {
            let _ = back_source(name, source, edges);
            Err(error)
        }
    }
}
