//! What a poll of a merge comes to.

ghost use Rattle.std.specs.Prelude.{◌≡◌};
ghost use Rattle.line_merge.specs.Items.{item_of};

use crate::found::Found;
use pipe_edges::Fetched;
use pipe_types::bytes::Bytes;

/// A line of the source of a place, from 0; that no open source has one ready; or why no more lines come.
#[derive(Drop)]
pub enum MergeItem {
    Line(u16, Bytes),
    NotYet,
    End,
    Fault(u16),
    TooLong(u16),
}

/// Why no more lines come: every source ended, the source of a place failed, or a line of one is longer than 65,536 bytes.
#[derive(Clone, Copy, PartialEq, Eq)]
pub enum MergeEnd {
    End,
    Fault(u16),
    TooLong(u16),
}

impl MergeEnd {
    pub(crate) fn found(self) -> Found
        ensures { result ≡ item_of self }
    {
        match self {
            MergeEnd::End => Found::new(0, Fetched::End),
            MergeEnd::Fault(place) => Found::new(place, Fetched::Fault),
            MergeEnd::TooLong(place) => Found::new(place, Fetched::TooLong),
        }
    }
}
