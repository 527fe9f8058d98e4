//! Opening, reading and giving back by name, in memory.

ghost use Rattle.std.specs.Prelude.{◌≡◌, ◌≤◌, ◌+◌, ◌++◌, ◌∷◌, [], true, false, ℕ, take, IfOk, OnOk, OnErr, MatchResult};
ghost use Rattle.pipe_edges.specs.{declared.edges.EdgeKind.TheVariants.{File, Source, Sink}, Paces.{unpaced}};
ghost use Rattle.pipe_edges.specs.Named.{IsFreshSource, GivesSource, GivesSink, asked_after, StandsAsBefore, OthersStand, KeepsBack, AddsBack, EdgeHasCause};
ghost use Rattle.pipe_types.specs.Counts.{Rose};
ghost use Rattle.mem_edges.specs.{MemSource.{taken_of, left_of, all_bytes, acts as source_acts}, MemSink.{held_by, room_of, acts as sink_acts}, Calls.{calls_in}};
ghost use Rattle.mem_edges.specs.{Refusals.{RefusesExactly}, Place.{IsFreePlace}, Opens.{Opens, FreeAsBefore, FreeAfter, FreeAgain, RefusalEnd, PlaysAgain, faults_after_call}};
ghost use Rattle.mem_edges.specs.MemEdges.{named_in, is_free_in, asked_in, sources_given_back, sinks_given_back, fails_of, fails_next as fails_next_of, refuses};

use crate::edges::{Call, MemEdges};
use crate::named::{Named, copy_text, free_place, put};
use crate::{MemSink, MemSource};
use pipe_edges::{EdgeEnd, EdgeKind, Edges, MAX_FILE_BYTES};
use pipe_types::bytes::{Bytes, Text};
use std::alloc::{AllocError, Global};

impl MemEdges {
    // Whether the next call is one of those that fail.
    fn fails_next(&self) -> bool
        ensures { result ≡ fails_next_of self.now }
    {
        let next = self.asked.len() as u64 + 1;
        self.fails.as_slice().contains(&next)
    }
}

// Notes a call. For want of memory nothing is noted.
fn note(alloc: Global, asked: &mut Vec<Call>, kind: EdgeKind, name: &Text) -> Result<(), AllocError>
    ensures ok { OnOk result (calls_in asked.new.items ≡ calls_in asked.old.items ++ (kind, name.now) ∷ []) }
    ensures err { OnErr result (calls_in asked.new.items ≡ calls_in asked.old.items) }
{
    let name = copy_text(alloc, name)?;
    asked.push(Call { kind, name })?;
    Ok(())
}

// Notes a call that fails, and counts it.
fn refuse(
    alloc: Global,
    asked: &mut Vec<Call>,
    faults: &mut u64,
    kind: EdgeKind,
    name: &Text,
) -> EdgeEnd
    ensures { RefusalEnd (calls_in asked.old.items) (calls_in asked.new.items) faults.old faults.new (kind, name.now) result }
{
    if note(alloc, asked, kind, name).is_err() {
        return EdgeEnd::OutOfMemory;
    }
    *faults = faults.saturating_add(1);
    EdgeEnd::Failed
}

// Marks what stands at a place as open.
fn open_at<T>(shelf: &mut Vec<Named<T>>, at: usize, name: &Text)
    requires { IsFreePlace name.now shelf.old.items at }
    ensures { Opens name.now shelf.old.items shelf.new.items }
{
    let named = &mut shelf[at];
    named.opened = true;
}

impl Edges for MemEdges {
    type Source = MemSource;

    type Sink = MemSink;

    type Out = MemSink;

    ghost told = { λ _. true };

    ghost named = { named_in };

    ghost asked = { asked_in };

    ghost faults = { λ m. m.faults };

    ghost sources_back = { sources_given_back };

    ghost sinks_back = { sinks_given_back };

    fn open_source(&mut self, name: &Text) -> Result<MemSource, EdgeEnd>
        ensures fresh { IfOk result (IsFreshSource taken_of (λ s. s.faults) (λ s. s.waits) (λ _. unpaced)) }
        ensures given { IfOk result (GivesSource (λ _. true) left_of (named_in self.old Source name.now)) }
        ensures stands { StandsAsBefore (named_in self.old) (named_in self.new) }
        ensures asked { asked_in self.new ≡ asked_after result Source name.now (asked_in self.old) }
        ensures back { KeepsBack sources_given_back sinks_given_back self.old self.new }
        ensures faults_stay { self.old.faults ≤ self.new.faults }
        ensures cause { EdgeHasCause self.old.faults self.new.faults result }
        ensures fails { fails_of self.new ≡ fails_of self.old }
        ensures counted { self.new.faults ≡ faults_after_call result self.old.faults }
        ensures refused { RefusesExactly (refuses self.old Source name.now) result }
        ensures free { FreeAfter result Source name.now (is_free_in self.old) (is_free_in self.new) }
        ensures script { IfOk result (PlaysAgain source_acts name.now self.old.sources.items) }
    {
        let place = if self.fails_next() {
            None
        } else {
            free_place(&self.sources, name)
        };
        let Some(at) = place else {
            return Err(refuse(
                self.alloc,
                &mut self.asked,
                &mut self.faults,
                EdgeKind::Source,
                name,
            ));
        };
        let Ok(source) = self.sources[at].item.again(self.alloc) else {
            return Err(EdgeEnd::OutOfMemory);
        };
        if note(self.alloc, &mut self.asked, EdgeKind::Source, name).is_err() {
            return Err(EdgeEnd::OutOfMemory);
        }
        open_at(&mut self.sources, at, name);
        Ok(source)
    }

    fn open_sink(&mut self, name: &Text) -> Result<MemSink, EdgeEnd>
        ensures fresh { IfOk result (λ k. k.faults ≡ 0) }
        ensures given { IfOk result (GivesSink (λ _. true) held_by (named_in self.old Sink name.now)) }
        ensures stands { StandsAsBefore (named_in self.old) (named_in self.new) }
        ensures asked { asked_in self.new ≡ asked_after result Sink name.now (asked_in self.old) }
        ensures back { KeepsBack sources_given_back sinks_given_back self.old self.new }
        ensures faults_stay { self.old.faults ≤ self.new.faults }
        ensures cause { EdgeHasCause self.old.faults self.new.faults result }
        ensures fails { fails_of self.new ≡ fails_of self.old }
        ensures counted { self.new.faults ≡ faults_after_call result self.old.faults }
        ensures refused { RefusesExactly (refuses self.old Sink name.now) result }
        ensures free { FreeAfter result Sink name.now (is_free_in self.old) (is_free_in self.new) }
        ensures script { IfOk result (PlaysAgain sink_acts name.now self.old.sinks.items) }
        ensures room { IfOk result (PlaysAgain room_of name.now self.old.sinks.items) }
    {
        let place = if self.fails_next() {
            None
        } else {
            free_place(&self.sinks, name)
        };
        let Some(at) = place else {
            return Err(refuse(
                self.alloc,
                &mut self.asked,
                &mut self.faults,
                EdgeKind::Sink,
                name,
            ));
        };
        let Ok(sink) = self.sinks[at].item.again(self.alloc) else {
            return Err(EdgeEnd::OutOfMemory);
        };
        if note(self.alloc, &mut self.asked, EdgeKind::Sink, name).is_err() {
            return Err(EdgeEnd::OutOfMemory);
        }
        open_at(&mut self.sinks, at, name);
        Ok(sink)
    }

    fn read_file(&mut self, name: &Text) -> Result<Bytes, EdgeEnd>
        ensures given { IfOk result (λ b. b ≡ take MAX_FILE_BYTES (named_in self.old File name.now)) }
        ensures stands { StandsAsBefore (named_in self.old) (named_in self.new) }
        ensures asked { asked_in self.new ≡ asked_after result File name.now (asked_in self.old) }
        ensures back { KeepsBack sources_given_back sinks_given_back self.old self.new }
        ensures faults_stay { self.old.faults ≤ self.new.faults }
        ensures cause { EdgeHasCause self.old.faults self.new.faults result }
        ensures fails { fails_of self.new ≡ fails_of self.old }
        ensures counted { self.new.faults ≡ faults_after_call result self.old.faults }
        ensures refused { RefusesExactly (refuses self.old File name.now) result }
        ensures free { FreeAsBefore (is_free_in self.old) (is_free_in self.new) }
    {
        let place = if self.fails_next() {
            None
        } else {
            free_place(&self.files, name)
        };
        let Some(at) = place else {
            return Err(refuse(
                self.alloc,
                &mut self.asked,
                &mut self.faults,
                EdgeKind::File,
                name,
            ));
        };
        let Ok(bytes) = first_bytes(self.alloc, &self.files[at].item) else {
            return Err(EdgeEnd::OutOfMemory);
        };
        if note(self.alloc, &mut self.asked, EdgeKind::File, name).is_err() {
            return Err(EdgeEnd::OutOfMemory);
        }
        Ok(bytes)
    }

    fn back_source(&mut self, name: &Text, source: MemSource) -> Result<(), AllocError>
        ensures back { AddsBack result (name.now, source) (sources_given_back self.old) (sources_given_back self.new) }
        ensures sinks { sinks_given_back self.new ≡ sinks_given_back self.old }
        ensures stands { OthersStand Source name.now (named_in self.old) (named_in self.new) }
        ensures asked { asked_in self.new ≡ asked_in self.old }
        ensures no_fault { self.new.faults ≡ self.old.faults }
        ensures fails { fails_of self.new ≡ fails_of self.old }
        ensures named { OnOk result (named_in self.new Source name.now ≡ all_bytes source) }
        ensures free { FreeAgain result Source name.now (is_free_in self.old) (is_free_in self.new) }
    {
        let name = copy_text(self.alloc, name)?;
        put(&mut self.sources, name, source, true)?;
        Ok(())
    }

    fn back_sink(&mut self, name: &Text, sink: MemSink) -> Result<(), AllocError>
        ensures back { AddsBack result (name.now, sink) (sinks_given_back self.old) (sinks_given_back self.new) }
        ensures sources { sources_given_back self.new ≡ sources_given_back self.old }
        ensures stands { OthersStand Sink name.now (named_in self.old) (named_in self.new) }
        ensures asked { asked_in self.new ≡ asked_in self.old }
        ensures no_fault { self.new.faults ≡ self.old.faults }
        ensures fails { fails_of self.new ≡ fails_of self.old }
        ensures named { OnOk result (named_in self.new Sink name.now ≡ held_by sink) }
        ensures free { FreeAgain result Sink name.now (is_free_in self.old) (is_free_in self.new) }
    {
        let name = copy_text(self.alloc, name)?;
        put(&mut self.sinks, name, sink, true)?;
        Ok(())
    }
}

// The first bytes of a file, as many as are read of one.
fn first_bytes(alloc: Global, bytes: &Bytes) -> Result<Bytes, AllocError>
    ensures { IfOk result (λ b. b ≡ take MAX_FILE_BYTES bytes.now) }
{
    let all = bytes.as_slice();
    let count = MAX_FILE_BYTES.min(all.len());
    Ok(Bytes::from_vec(Vec::from_slice(alloc, &all[..count])?))
}
