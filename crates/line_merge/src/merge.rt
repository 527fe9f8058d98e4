//! The merge.

ghost use Rattle.std.specs.Prelude.{◌≡◌, ◌≤◌, ◌<◌, ◌++◌, [], ℕ, List, None, Some, All, IsNone, IfOk, IfErr, IfSome, Ok, length, map, slice_get, vec_capacity};
ghost use Rattle.line_merge.specs.Items.{item_of, end_by, given_by, next_place, places_in};
ghost use Rattle.pipe_edges.specs.{Fetch.{records_in}, Texts.{IsLine}};
ghost use Rattle.source_lines.specs.Seen.{SourceSeen, source_seen};

use crate::found::Found;
use crate::item::{MergeEnd, MergeItem};
use crate::list::SourceList;
use crate::order::place_after;
use crate::stream::Stream;
use crate::streams::{close_all, open_all};
use crate::tries::next_round;
use pipe_edges::{ByteSource, Fetched};
use std::alloc::{AllocError, Global};

/// The most sources of a merge.
pub const MAX_STREAMS: usize = 64;

/// Hands out the lines of 2 to 64 sources.
#[derive(Drop)]
pub struct LineMerge<B> {
    streams: Vec<Stream<B>>,
    order: Vec<u16>,
    end: Option<MergeEnd>,
    room: Vec<B>,
    ghost few: { length streams.items ≤ 64 },
    ghost placed: { next_place order.items ≤ length streams.items },
    ghost empty: { room.items ≡ [] },
    ghost roomy: { length streams.items ≤ vec_capacity room },
}

impl<B: ByteSource + Drop> LineMerge<B> {
    ghost use Rattle.line_merge.specs.Streams.{stream_at, places_of, merge_end_of, sources_of};
    ghost use Rattle.line_merge.specs.Tries.{RoundHasCause};
    ghost use Rattle.line_merge.specs.Seen.{AreMergedFrom, MergeReadsOn, AreUnpaced, merge_seen, waits_together};
    ghost use Rattle.line_merge.specs.Fetch.{FetchHasCause, FetchRises, RisesIfNotYet, answer_to, Remembers};

    /// Over these sources. For want of memory they come back as they were.
    pub fn new(
        alloc: Global,
        sources: SourceList<B>,
    ) -> Result<LineMerge<B>, (SourceList<B>, AllocError)>
        requires some { 2 ≤ length sources }
        requires few { length sources ≤ 64 }
        ensures merged { IfOk result (λ m. AreMergedFrom (map (source_seen B.ByteSource) sources) (merge_seen B.ByteSource m) []) }
        ensures order { IfOk result (λ m. places_of m ≡ []) }
        ensures sources { IfOk result (λ m. sources_of m ≡ sources) }
        ensures open { IfOk result (λ m. merge_end_of m ≡ None) }
        ensures err { IfErr result (λ e. e.0 ≡ sources) }
    {
        match open_all(alloc, sources.into_vec()) {
            Ok((streams, room)) => Ok(LineMerge {
                streams,
                order: Vec::new(alloc),
                end: None,
                room,
            }),
            Err((sources, e)) => Err((SourceList::from_vec(sources), e)),
        }
    }

    /// The sources in order, with all that they counted. Bytes that were read and not handed out are let go.
    pub fn into_sources(self) -> SourceList<B>
        ensures { result ≡ sources_of self }
    {
        let LineMerge {
            streams,
            order,
            end,
            room,
        } = self;
        let _ = end;
        drop(order);
        SourceList::from_vec(close_all(streams, room))
    }

    /// The places of the lines that were given, in order.
    pub fn order(&self) -> &[u16]
        ensures { result.now ≡ places_of self.now }
    {
        self.order.as_slice()
    }

    // One round, if no end is known, and what it found.
    fn go_round(&mut self) -> Result<Found, AllocError>
        ensures merged { (opened : List SourceSeen) (given : List (ℕ × List ℕ)) → AreMergedFrom opened (merge_seen B.ByteSource self.old) given
            → AreMergedFrom opened (merge_seen B.ByteSource self.new) (given ++ given_by result) }
        ensures each_is_a_line { All IsLine (map (λ d. d.1) (given_by result)) }
        ensures order { places_of self.new ≡ places_of self.old ++ places_in (given_by result) }
        ensures cause { IfOk result (λ item. IsNone (merge_end_of self.old)
            → RoundHasCause B.ByteSource (next_place (places_of self.old)) (stream_at self.old) (stream_at self.new) item) }
        ensures remembers { IfOk result (λ item. merge_end_of self.new ≡ end_by item) }
        ensures again { IfSome (merge_end_of self.old) (λ e. (result ≡ Ok (item_of e)) × (self.new ≡ self.old)) }
        ensures unpaced { AreUnpaced (merge_seen B.ByteSource self.old) → AreUnpaced (merge_seen B.ByteSource self.new) }
        ensures rises { IfOk result (λ item. RisesIfNotYet item (waits_together (merge_seen B.ByteSource self.old)) (waits_together (merge_seen B.ByteSource self.new))) }
        ensures waits_stay { waits_together (merge_seen B.ByteSource self.old) ≤ waits_together (merge_seen B.ByteSource self.new) }
    {
        if let Some(end) = self.end {
            return Ok(end.found());
        }
        if let Err(e) = self.order.reserve(1) {
            return Err(e);
        }
        let first = place_after(self.order.as_slice());
        match next_round(&mut self.streams, first) {
            Ok(found) => {
                self.end = found.end();
                found.note(&mut self.order);
                Ok(found)
            }
            Err(e) => Err(e),
        }
    }

    /// Tries the open sources once each, from the place after the last line's round to that place: the first that has a line
    /// gives it. One that has ended is closed, and passed over. A source that fails, or has a line that is too long, ends the
    /// merge, and so does the end of all; each is answered again by every later call. For want of memory no line is gone.
    pub fn poll(&mut self) -> Result<MergeItem, AllocError>
        // The lines of each source are the first of its lines, in order, each whole and once.
        ensures merged { (opened : List SourceSeen) (given : List (ℕ × List ℕ)) → AreMergedFrom opened (merge_seen B.ByteSource self.old) given
            → AreMergedFrom opened (merge_seen B.ByteSource self.new) (given ++ given_by result) }
        ensures each_is_a_line { All IsLine (map (λ d. d.1) (given_by result)) }
        ensures order { places_of self.new ≡ places_of self.old ++ places_in (given_by result) }
        ensures cause { IfOk result (λ item. IsNone (merge_end_of self.old)
            → RoundHasCause B.ByteSource (next_place (places_of self.old)) (stream_at self.old) (stream_at self.new) item) }
        ensures remembers { IfOk result (λ item. merge_end_of self.new ≡ end_by item) }
        ensures again { IfSome (merge_end_of self.old) (λ e. (result ≡ Ok (item_of e)) × (self.new ≡ self.old)) }
        // Where the sources have no pace, none comes to them.
        ensures unpaced { AreUnpaced (merge_seen B.ByteSource self.old) → AreUnpaced (merge_seen B.ByteSource self.new) }
        ensures rises { IfOk result (λ item. RisesIfNotYet item (waits_together (merge_seen B.ByteSource self.old)) (waits_together (merge_seen B.ByteSource self.new))) }
        ensures waits_stay { waits_together (merge_seen B.ByteSource self.old) ≤ waits_together (merge_seen B.ByteSource self.new) }
    {
        match self.go_round() {
            Ok(found) => Ok(found.into_item()),
            Err(e) => Err(e),
        }
    }

    /// Polls once, and hands out a line as the one record. An end is answered again by every later call. For want of memory no
    /// line is gone.
    pub fn fetch(&mut self, max: u32) -> Result<Fetched, AllocError>
        requires { 0 < max }
        ensures merged { MergeReadsOn (records_in result) (merge_seen B.ByteSource self.old) (merge_seen B.ByteSource self.new) }
        ensures each_is_a_line { All IsLine (records_in result) }
        ensures cause { IfOk result (λ answer. IsNone (merge_end_of self.old)
            → FetchHasCause B.ByteSource (stream_at self.old) (stream_at self.new) answer) }
        ensures remembers { IfOk result (λ answer. Remembers (merge_end_of self.new) answer) }
        ensures again { IfSome (merge_end_of self.old) (λ e. IfOk result (λ answer. answer ≡ answer_to e) × (self.new ≡ self.old)) }
        ensures unpaced { AreUnpaced (merge_seen B.ByteSource self.old) → AreUnpaced (merge_seen B.ByteSource self.new) }
        ensures rises { IfOk result (λ answer. FetchRises answer (waits_together (merge_seen B.ByteSource self.old)) (waits_together (merge_seen B.ByteSource self.new))) }
        ensures waits_stay { waits_together (merge_seen B.ByteSource self.old) ≤ waits_together (merge_seen B.ByteSource self.new) }
    {
        let _ = max;
        match self.go_round() {
            Ok(found) => Ok(found.into_fetched()),
            Err(e) => Err(e),
        }
    }
}
