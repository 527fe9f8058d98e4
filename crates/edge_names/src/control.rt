//! The control source, opened and given back by its name.

ghost use Rattle.std.specs.Prelude.{[], option_map, IfOk, IfErr, OnOk, OnErr};
ghost use Rattle.stage_bodies.specs.Seen.{line_seen};
ghost use Rattle.edge_names.specs.{Controls.{IsControlOpened, control_call, named_control}, Opened.{IfCutOff, IfFailed, IsOneCut, IsOneFailed, one}, Returned.{GivesBack}};

use crate::lines::open_lines;
use crate::opening::Unopened;
use crate::seen::{SeenEdges, back_source};
use pipe_edges::{ByteSource, Edges, LineSource};
use pipe_types::bytes::Text;
use std::alloc::{AllocError, Global};

/// Opens the control source, where one is named. For want of memory for its lines it goes back under its name, as far as
/// there is memory for that.
pub(crate) fn open_control<E: Edges>(
    alloc: Global,
    name: &Option<Text>,
    edges: &mut E,
) -> Result<Option<LineSource<E::Source>>, Unopened>
    ensures opened { IfOk result (λ control. IsControlOpened name.now (⟦<E as SeenEdges>⟧.seen edges.old) (⟦<E as SeenEdges>⟧.seen edges.new)
        (option_map (line_seen E.Source.ByteSource) control)) }
    ensures failed { IfErr result (λ e. IfFailed e (λ n. IsOneFailed (one (control_call name.now)) n (⟦<E as SeenEdges>⟧.seen edges.old) (⟦<E as SeenEdges>⟧.seen edges.new))) }
    ensures cut_off { IfErr result (λ e. IfCutOff e (IsOneCut (one (control_call name.now)) (⟦<E as SeenEdges>⟧.seen edges.old) (⟦<E as SeenEdges>⟧.seen edges.new))) }
{
    match name {
        Some(name) => match open_lines(alloc, name, edges) {
            Ok(lines) => Ok(Some(lines)),
            Err(unopened) => Err(unopened),
        },
        None => Ok(None),
    }
}

/// Gives the control source back under its name, if it was opened. Bytes that were read and not handed out are let go. For
/// want of memory nothing is given back.
pub(crate) fn back_control<E: Edges>(
    name: &Option<Text>,
    control: Option<LineSource<E::Source>>,
    edges: &mut E,
) -> Result<(), AllocError>
    ensures back { OnOk result (GivesBack (named_control name.now (option_map (line_seen E.Source.ByteSource) control)) []
        (⟦<E as SeenEdges>⟧.seen edges.old) (⟦<E as SeenEdges>⟧.seen edges.new)) }
    ensures nothing { OnErr result (GivesBack [] [] (⟦<E as SeenEdges>⟧.seen edges.old) (⟦<E as SeenEdges>⟧.seen edges.new)) }
{
    match name {
        Some(name) => match control {
            Some(lines) => back_source(name, lines.into_inner(), edges),
            None => Ok(()),
        },
        None => Ok(()),
    }
}
