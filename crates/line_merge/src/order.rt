//! The order in which a merge gave its lines.

ghost use Rattle.std.specs.Prelude.{◌≡◌};
ghost use Rattle.line_merge.specs.Items.{next_place};

/// The place after the last one, 0 where there is none.
pub(crate) fn place_after(order: &[u16]) -> usize
    ensures { result ≡ next_place order.now }
{
    match order.last() {
        Some(place) => usize::from(*place) + 1,
        None => 0,
    }
}
