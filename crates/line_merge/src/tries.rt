//! One try of each source of a round.

ghost use Rattle.std.specs.Prelude.{◌≡◌, ◌≤◌, ◌<◌, ℕ, true, false, IfOk, length, slice_get};
ghost use Rattle.line_merge.specs.{Items.{line_in, lines_from, given_in, given_by}, Streams.{Both, There}, Tries.{Gives, TakenHasCause, RangeHasCause, RoundHasCause}};
ghost use Rattle.line_merge.specs.Opening.{SomeIsOpen, NoneIsOpen, IsWithout, RestHasCause};

use crate::found::{Found, Tried};
use crate::stream::Stream;
use pipe_edges::{ByteSource, Fetched};
use std::alloc::AllocError;

fn try_at<B: ByteSource>(streams: &mut Vec<Stream<B>>, at: usize) -> Result<Tried, AllocError>
    requires { at < length streams.old.items }
    ensures len { length streams.new.items ≡ length streams.old.items }
    ensures others { (k : ℕ) → ¬ (k ≡ at) → slice_get streams.new.items k ≡ slice_get streams.old.items k }
    ensures gives { There (Gives B.ByteSource (line_in result)) (slice_get streams.old.items at) (slice_get streams.new.items at) }
    ensures cause { IfOk result (λ taken. There (λ old new. TakenHasCause B.ByteSource old new taken)
        (slice_get streams.old.items at) (slice_get streams.new.items at)) }
{
    streams[at].try_line()
}

// Tries the sources from one place up to another, in order, until one has a line, has failed or has a line that is too long.
fn try_range<B: ByteSource>(
    streams: &mut Vec<Stream<B>>,
    from: usize,
    to: usize,
) -> Result<Option<Found>, AllocError>
    requires ordered { from ≤ to }
    requires within { to ≤ length streams.old.items }
    requires few { length streams.old.items ≤ 64 }
    ensures len { length streams.new.items ≡ length streams.old.items }
    ensures gives { (k : ℕ) → Both (Gives B.ByteSource (lines_from k (given_in result))) (slice_get streams.old.items k) (slice_get streams.new.items k) }
    ensures cause { IfOk result (RangeHasCause B.ByteSource from to (slice_get streams.old.items) (slice_get streams.new.items)) }
{
    for at in from..to {
        match try_at(streams, at) {
            Ok(tried) => {
                if let Some(item) = tried.item_at(at as u16) {
                    return Ok(Some(item));
                }
            }
            Err(e) => return Err(e),
        }
    }
    Ok(None)
}

fn is_any_open<B: ByteSource>(streams: &[Stream<B>]) -> bool
    ensures some { result ≡ true → SomeIsOpen (slice_get streams.now) }
    ensures none { result ≡ false → NoneIsOpen (slice_get streams.now) }
{
    for stream in streams {
        if stream.is_open() {
            return true;
        }
    }
    false
}

// What a round comes to in which no source has a line.
fn without_line<B: ByteSource>(streams: &[Stream<B>]) -> Found
    ensures { IsWithout (slice_get streams.now) result }
{
    if is_any_open(streams) {
        Found::new(0, Fetched::NotYet)
    } else {
        Found::new(0, Fetched::End)
    }
}

// Tries those before this place, after the others.
fn rest_of_round<B: ByteSource>(
    streams: &mut Vec<Stream<B>>,
    first: usize,
) -> Result<Found, AllocError>
    requires within { first ≤ length streams.old.items }
    requires few { length streams.old.items ≤ 64 }
    ensures len { length streams.new.items ≡ length streams.old.items }
    ensures gives { (k : ℕ) → Both (Gives B.ByteSource (lines_from k (given_by result))) (slice_get streams.old.items k) (slice_get streams.new.items k) }
    ensures cause { IfOk result (RestHasCause B.ByteSource first (slice_get streams.old.items) (slice_get streams.new.items)) }
{
    match try_range(streams, 0, first) {
        Ok(Some(item)) => Ok(item),
        Ok(None) => Ok(without_line(streams.as_slice())),
        Err(e) => Err(e),
    }
}

/// Tries the sources once each, in the round that begins at this place.
pub(crate) fn next_round<B: ByteSource>(
    streams: &mut Vec<Stream<B>>,
    first: usize,
) -> Result<Found, AllocError>
    requires within { first ≤ length streams.old.items }
    requires few { length streams.old.items ≤ 64 }
    ensures len { length streams.new.items ≡ length streams.old.items }
    ensures gives { (k : ℕ) → Both (Gives B.ByteSource (lines_from k (given_by result))) (slice_get streams.old.items k) (slice_get streams.new.items k) }
    ensures cause { IfOk result (RoundHasCause B.ByteSource first (slice_get streams.old.items) (slice_get streams.new.items)) }
{
    let count = streams.len();
    match try_range(streams, first, count) {
        Ok(Some(item)) => Ok(item),
        Ok(None) => rest_of_round(streams, first),
        Err(e) => Err(e),
    }
}
