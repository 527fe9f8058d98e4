//! A whole run of a topology: boxes handed out, sources and sinks opened, the rounds, and all of it given back.
//!
//! `run_topology` takes the boxes of a stock and a supply of sources, opens what they name, runs until the pipeline is drained or
//! halted, gives sources and sinks back under their names, and answers the core with the journal, and the boxes in their order.
#![tactic(auto)]

ghost use Rattle.std.specs.Prelude.{◌≡◌, ℕ, Bool, List, All, Option, None};
ghost use Rattle.pipe_types.specs.{declared.numbers.StageNo.{StageNo}, declared.topology.Rate.{Rate}};
ghost use Rattle.pipe_model.specs.History.{History};
ghost use Rattle.pipe_edges.specs.{Paces.{unpaced}, Texts.{IsLine, ended}};
ghost use Rattle.stage_bodies.specs.Seen.{SourceSeen};
ghost use Rattle.pipe_run.specs.{Outside.{IsMadeRead}, Records.{ReadsRecords}};

mod live;
mod run;

pub use live::Live;
pub use run::{Ended, NoRun, Run, run_topology};

/// A run reads the records, in their order, of a source that was made of records.
pub fn made_sources_give_their_records()
    ensures { (whole : Bool) (rate : Option Rate) (before : History) (p : StageNo) (records : List (List ℕ)) (source : SourceSeen) → All IsLine records
        → IsMadeRead whole before p (ended records) source → (rate ≡ None → source.paced ≡ unpaced) → ReadsRecords whole rate before p records }
{}
