//! What stands under names, in memory.

ghost use Rattle.std.specs.Prelude.{◌≡◌, [], true, false, ℕ, List, OnOk, OnErr, MatchOption};
ghost use Rattle.pipe_edges.specs.{declared.edges.EdgeKind.{EdgeKind}, Named.{StandsAsBefore}};

use crate::named::{Named, free_place, put};
use crate::{MemSink, MemSource};
use pipe_edges::EdgeKind;
use pipe_types::bytes::{Bytes, Text};
use pipe_types::list::ListOf;
use std::alloc::{AllocError, Global};

/// The numbers of the calls that fail, from 1.
pub type CallList = ListOf<u64>;

// One call that opened or read.
#[derive(Drop)]
pub struct Call {
    pub kind: EdgeKind,
    pub name: Text,
}

/// Sources, sinks and files under names. Each opening gives what stands there anew: a source from its first byte
/// and the start of its script, a sink with what it holds. What is given back stands under its name from then on.
#[derive(Drop)]
pub struct MemEdges {
    pub(crate) alloc: Global,
    pub(crate) fails: CallList,
    pub(crate) sources: Vec<Named<MemSource>>,
    pub(crate) sinks: Vec<Named<MemSink>>,
    pub(crate) files: Vec<Named<Bytes>>,
    pub(crate) asked: Vec<Call>,
    pub(crate) faults: u64,
}

impl MemEdges {
    ghost use Rattle.mem_edges.specs.Elsewhere.{Adds, KeepsCalls};
    ghost use Rattle.mem_edges.specs.MemSource.{all_bytes, IsUnread};
    ghost use Rattle.mem_edges.specs.MemSink.{held_by, IsUnwritten};
    ghost use Rattle.mem_edges.specs.MemEdges.{fails_of, IsNew, named_in, is_free_in, asked_in, sources_given_back, sinks_given_back};

    /// Nothing stands under any name. The calls of `read_file`, `open_source` and `open_sink` with these numbers,
    /// from 1, will fail and count; a call that finds no memory has no number.
    pub fn new(alloc: Global, fails: CallList) -> MemEdges
        ensures empty { (kind : EdgeKind) (name : List ℕ) → IsNew result kind name }
        ensures fails { fails_of result ≡ fails }
        ensures asked { asked_in result ≡ [] }
        ensures back { (sources_given_back result ≡ []) × (sinks_given_back result ≡ []) }
    {
        MemEdges {
            alloc,
            fails,
            sources: Vec::new(alloc),
            sinks: Vec::new(alloc),
            files: Vec::new(alloc),
            asked: Vec::new(alloc),
            faults: 0,
        }
    }

    /// Puts a source under a new name.
    pub fn add_source(&mut self, name: Text, source: MemSource) -> Result<(), AllocError>
        requires new_name { IsNew self.old EdgeKind.Source name }
        requires unread { IsUnread source }
        ensures ok { OnOk result (Adds self.old self.new EdgeKind.Source name (all_bytes source)) }
        ensures err { OnErr result (StandsAsBefore (named_in self.old) (named_in self.new)) }
        ensures calls { KeepsCalls self.old self.new }
    {
        put(&mut self.sources, name, source, false)?;
        Ok(())
    }

    /// Puts a sink under a new name.
    pub fn add_sink(&mut self, name: Text, sink: MemSink) -> Result<(), AllocError>
        requires new_name { IsNew self.old EdgeKind.Sink name }
        requires unwritten { IsUnwritten sink }
        ensures ok { OnOk result (Adds self.old self.new EdgeKind.Sink name (held_by sink)) }
        ensures err { OnErr result (StandsAsBefore (named_in self.old) (named_in self.new)) }
        ensures calls { KeepsCalls self.old self.new }
    {
        put(&mut self.sinks, name, sink, false)?;
        Ok(())
    }

    /// Puts a file under a new name.
    pub fn add_file(&mut self, name: Text, bytes: Bytes) -> Result<(), AllocError>
        requires { IsNew self.old EdgeKind.File name }
        ensures ok { OnOk result (Adds self.old self.new EdgeKind.File name bytes) }
        ensures err { OnErr result (StandsAsBefore (named_in self.old) (named_in self.new)) }
        ensures calls { KeepsCalls self.old self.new }
    {
        put(&mut self.files, name, bytes, false)?;
        Ok(())
    }

    /// The sink under this name, as it was added or given back last: none exactly where no sink is there or it is
    /// open.
    pub fn sink(&self, name: &Text) -> Option<&MemSink>
        ensures { MatchOption result (is_free_in self.now EdgeKind.Sink name.now ≡ false)
            (λ k. (is_free_in self.now EdgeKind.Sink name.now ≡ true)
            × (held_by k.now ≡ named_in self.now EdgeKind.Sink name.now)) }
    {
        match free_place(&self.sinks, name) {
            Some(at) => Some(&self.sinks[at].item),
            None => None,
        }
    }
}
