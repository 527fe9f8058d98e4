//! Fetches.

ghost use Rattle.std.specs.Prelude.{◌≡◌, ◌<◌, [], OnErr, IfOk};
ghost use Rattle.pipe_edges.specs.{LineSource.{waiting}, Needed.{ReadsAsNeeded}};
ghost use Rattle.stage_bodies.specs.{Seen.{line_seen, merge_seen, feed_seen}, Jobs.{Fetches, FetchesMerge, FetchesFeed, IsCutFetch, IsCutMerge, IsCutFeed}};
ghost use Rattle.body_jobs.specs.Fetched.{came_of};

use line_merge::LineMerge;
use pipe_edges::{ByteSource, Fetched, LineSource};
use pipe_types::step::SourceHow;
use stage_bodies::{Feed, Outcome};
use std::alloc::AllocError;

/// Reads at most so many records of the source, as the job of a producer does. For want of memory no line is gone, and an end
/// stays known.
pub fn fetch<S: ByteSource>(source: &mut LineSource<S>, most: u32) -> Result<Outcome, AllocError>
    requires { 0 < most }
    ensures done { IfOk result (λ came. Fetches most came
        (line_seen S.ByteSource source.old) (line_seen S.ByteSource source.new)) }
    ensures cut_off { OnErr result (IsCutFetch
        (line_seen S.ByteSource source.old) (line_seen S.ByteSource source.new)) }
    ensures needed { OnErr result (ReadsAsNeeded (waiting source.old) (waiting source.new) []) }
{
    match source.fetch(most) {
        Ok(fetched) => Ok(outcome_of(fetched)),
        Err(e) => Err(e),
    }
}

/// Hands out the next line of one of the sources of a merge. For want of memory no line is gone.
fn fetch_merge<S: ByteSource + Drop>(
    merge: &mut LineMerge<S>,
    most: u32,
) -> Result<Outcome, AllocError>
    requires { 0 < most }
    ensures done { IfOk result (λ came. FetchesMerge came
        (merge_seen S.ByteSource merge.old) (merge_seen S.ByteSource merge.new)) }
    ensures cut_off { OnErr result (IsCutMerge
        (merge_seen S.ByteSource merge.old) (merge_seen S.ByteSource merge.new)) }
{
    match merge.fetch(most) {
        Ok(fetched) => Ok(outcome_of(fetched)),
        Err(e) => Err(e),
    }
}

/// Hands out the next records of the feed, at most so many. For want of memory no line is gone.
pub fn fetch_feed<S: ByteSource + Drop>(
    feed: &mut Feed<S>,
    most: u32,
) -> Result<Outcome, AllocError>
    requires { 0 < most }
    ensures done { IfOk result (λ came. FetchesFeed most came
        (feed_seen S.ByteSource feed.old) (feed_seen S.ByteSource feed.new)) }
    ensures cut_off { OnErr result (IsCutFeed
        (feed_seen S.ByteSource feed.old) (feed_seen S.ByteSource feed.new)) }
{
    match feed {
        Feed::Lines(lines) => fetch(lines, most),
        Feed::Merge(merge) => fetch_merge(merge, most),
    }
}

fn outcome_of(fetched: Fetched) -> Outcome
    ensures { result ≡ came_of fetched }
{
    match fetched {
        Fetched::Records(records) => Outcome::Records(records),
        Fetched::NotYet => Outcome::NotYet,
        Fetched::End => Outcome::Ended(SourceHow::End),
        Fetched::Fault => Outcome::Ended(SourceHow::Fault),
        Fetched::TooLong => Outcome::Ended(SourceHow::TooLong),
    }
}
