//! A core without a step.

ghost use Rattle.std.specs.Prelude.{◌≡◌, ◌≤◌, [], IfOk, IfErr};
ghost use Rattle.pipe_types.specs.Sound.{IsSound};
ghost use Rattle.core_state.specs.Stands.{Stands};

use crate::state::{Core, MOST_DUE};
use crate::tables::new_tables;
use core_tables::place_table::PlaceTable;
use core_tables::rows::Totals;
use message_ack::Legs;
use pipe_journal::Journal;
use pipe_types::topology::Topology;
use std::alloc::{AllocError, Global};

/// Nothing is counted yet.
const NO_TOTALS: Totals = Totals {
    accepted: 0,
    bytes: 0,
    now: 0,
    controls: 0,
    quiet: 0,
    draining: false,
    halted: false,
};

/// A journal with no step, and room for as many as may be due.
fn new_journal(alloc: Global) -> Result<Journal, AllocError>
    ensures empty { IfOk result (λ journal. journal.steps ≡ []) }
    ensures room { IfOk result (λ journal. 1088 ≤ journal.spare) }
    ensures none { IfOk result (λ journal. journal.acked.rows ≡ []) }
{
    let mut journal = Journal::new(alloc);
    journal.reserve(MOST_DUE)?;
    Ok(journal)
}

impl Core {
    /// A core with an empty journal. What it takes later comes from `alloc`. Where memory is wanting the topology is
    /// given back.
    pub fn new(alloc: Global, topology: Topology) -> Result<Core, (Topology, AllocError)>
        requires sound { IsSound topology }
        ensures topology { IfOk result (λ core. core.topology ≡ topology) }
        ensures journal { IfOk result (λ core. core.journal.steps ≡ []) }
        ensures stands { IfOk result (λ core. Stands core) }
        ensures returned { IfErr result (λ refused. refused.0 ≡ topology) }
    {
        let Ok(journal) = new_journal(alloc) else {
            return Err((topology, AllocError));
        };
        match new_tables(alloc, &topology) {
            Ok(tables) => Ok(Core {
                topology,
                journal,
                stages: tables.stages,
                posts: tables.posts,
                came: tables.came,
                subs: tables.subs,
                waiting: tables.waiting,
                inboxes: tables.inboxes,
                chunks: tables.chunks,
                batchers: tables.batchers,
                children: tables.children,
                places: PlaceTable::new(alloc),
                settled: Vec::new(alloc),
                producers: Vec::new(alloc),
                contents: Vec::new(alloc),
                batches: Vec::new(alloc),
                ends: tables.ends,
                legs: Legs::new(alloc),
                restarts: tables.restarts,
                totals: NO_TOTALS,
                alloc,
            }),
            Err(failed) => Err((topology, failed)),
        }
    }
}
