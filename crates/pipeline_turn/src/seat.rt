//! One worker's token.
ghost use Rattle.std.specs.Prelude.{◌≡◌, Some, IsSome};
ghost use Rattle.pipeline_turn.specs.Seats.{IsSound, seat_view};

use crate::held::Held;
use crate::view::{Handed, View};
use std::marker::Model;

/// What one worker takes and gives with. It has no bytes. Contracts see a seat as a `SeatView`.
pub struct Seat<V: Held> {
    pub(crate) inner: atomic_table::Seat<Option<Handed<V>>, View<V::Start>>,
    ghost begun: { IsSome inner.me.0.origin },
}

impl<V: Held> Model for Seat<V> {
    ghost use Rattle.pipeline_turn.specs.Seats.{SeatView, seat_view, the, IsSound};

    ghost Value = { SeatView V.Start };

    ghost view = { λ s. seat_view s.inner.table_id s.inner.me.0 (the s.inner.me.0.origin s.begun) };

    ghost invariant = { λ s. IsSound s.inner.me };
}

impl<V: Held> Seat<V> {
    pub(crate) fn into_inner(self) -> atomic_table::Seat<Option<Handed<V>>, View<V::Start>>
        ensures sound { IsSound result.me }
        ensures origin { result.me.0.origin ≡ Some self.origin }
        ensures view { seat_view result.table_id result.me.0 self.origin ≡ self }
    {
        let Self { inner } = self;
        inner
    }
}

/// A seat that is dropped keeps its parts, so the value cannot be taken back any more.
impl<V: Held> Drop for Seat<V> {
    fn drop(self) {
        let Self { inner } = self;
        drop(inner);
    }
}
