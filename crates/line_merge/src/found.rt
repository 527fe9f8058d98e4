//! What a try of one source came to, and what a round over all found.

ghost use Rattle.std.specs.Prelude.{◌≡◌, ◌∷◌, ◌<◌, ◌++◌, [], length, vec_len, vec_capacity};
ghost use Rattle.line_merge.specs.{Items.{answer_by, end_by, fetched_by, given_of, item_in, leaves_open, places_in}, Taken.{IsSingle}, Found.{item_by}};

use crate::item::{MergeEnd, MergeItem};
use pipe_edges::Fetched;
use pipe_types::bytes::{Bytes, BytesList};
use std::marker::Model;

// The fetch of one line that a try is, which contracts see as what it came to.
#[derive(Drop)]
pub struct Tried {
    fetched: Fetched,
}

impl Model for Tried {
    ghost use Rattle.line_merge.specs.Taken.{IsSingle, Taken, taken_by};

    ghost Value = { Taken };

    ghost view = { λ t. taken_by t.fetched };

    ghost invariant = { λ t. IsSingle t.fetched };
}

impl Tried {
    pub fn new(fetched: Fetched) -> Tried
        requires { IsSingle fetched }
        ensures { fetched ≡ fetched_by result }
    {
        Tried { fetched }
    }

    // Whether its source is open after it.
    pub fn leaves_open(&self) -> bool
        ensures { result ≡ leaves_open self.now }
    {
        !matches!(self.fetched, Fetched::End)
    }

    // What the merge gives for it, if it does not go on to the next source.
    pub fn item_at(self, place: u16) -> Option<Found>
        ensures { result ≡ item_in place self }
    {
        let fetched = self.fetched;
        if matches!(fetched, Fetched::NotYet | Fetched::End) {
            None
        } else {
            Some(Found { place, fetched })
        }
    }
}

// What was found, as the fetch of the source of a place, which contracts see as the item that it becomes.
#[derive(Drop)]
pub struct Found {
    place: u16,
    fetched: Fetched,
}

impl Model for Found {
    ghost use Rattle.line_merge.specs.{Found.{item_by}, Taken.{IsSingle}};
    ghost use Rattle.line_merge.specs.declared.item.MergeItem.{MergeItem};

    ghost Value = { MergeItem };

    ghost view = { λ f. item_by f.place f.fetched };

    ghost invariant = { λ f. IsSingle f.fetched };
}

fn only_line(records: BytesList) -> Bytes
    requires { length records ≡ 1 }
    ensures { records ≡ result ∷ [] }
{
    let mut lines = records.into_vec();
    match lines.pop() {
        Some(line) => line,
        None => unreachable!(),
    }
}

impl Found {
    pub fn new(place: u16, fetched: Fetched) -> Found
        requires { IsSingle fetched }
        ensures { result ≡ item_by place fetched }
    {
        Found { place, fetched }
    }

    pub fn into_item(self) -> MergeItem
        ensures { result ≡ self }
    {
        let Found { place, fetched } = self;
        match fetched {
            Fetched::Records(records) => MergeItem::Line(place, only_line(records)),
            Fetched::NotYet => MergeItem::NotYet,
            Fetched::End => MergeItem::End,
            Fetched::Fault => MergeItem::Fault(place),
            Fetched::TooLong => MergeItem::TooLong(place),
        }
    }

    // The answer of a fetch: the line is in the list in which it came.
    pub fn into_fetched(self) -> Fetched
        ensures { result ≡ answer_by self }
    {
        self.fetched
    }

    // The end that is known from then on.
    pub fn end(&self) -> Option<MergeEnd>
        ensures { result ≡ end_by self.now }
    {
        match &self.fetched {
            Fetched::Records(_) | Fetched::NotYet => None,
            Fetched::End => Some(MergeEnd::End),
            Fetched::Fault => Some(MergeEnd::Fault(self.place)),
            Fetched::TooLong => Some(MergeEnd::TooLong(self.place)),
        }
    }

    // Notes the place of a line. There is room for it.
    pub fn note(&self, order: &mut Vec<u16>)
        requires { vec_len order.old < vec_capacity order.old }
        ensures { order.new.items ≡ order.old.items ++ places_in (given_of self.now) }
    {
        if let Fetched::Records(_) = &self.fetched {
            order.push_reserved(self.place);
        }
    }
}
