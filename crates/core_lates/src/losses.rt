//! Records that are lost as they come.

ghost use Rattle.std.specs.Prelude.{◌≡◌, ◌∷◌, [], ◌++◌, ◌+◌, ◌≤◌, ◌<◌, ◌^◌, replicate, vec_len, vec_capacity};
ghost use Rattle.pipe_types.specs.declared.message.Place.TheVariants.{Lost};
ghost use Rattle.pipe_model.specs.History.{bytes_in};

use core_tables::place_table::PlaceTable;
use pipe_types::bytes::Bytes;
use pipe_types::message::{Loss, Place};

/// Puts so many messages behind the others, all lost so.
pub(crate) fn lose_new(places: &mut PlaceTable, loss: Loss, count: u32)
    requires { vec_len places.old + count ≤ vec_capacity places.old }
    ensures items { places.new.items ≡ places.old.items ++ replicate count (Lost loss) }
    ensures capacity { vec_capacity places.new ≡ vec_capacity places.old }
{
    for k in 0..count {
        push_lost(places, loss);
    }
}

/// Puts one message behind the others, lost so.
fn push_lost(places: &mut PlaceTable, loss: Loss)
    requires { vec_len places.old < vec_capacity places.old }
    ensures items { places.new.items ≡ places.old.items ++ Lost loss ∷ [] }
    ensures len { vec_len places.new ≡ vec_len places.old + 1 }
    ensures capacity { vec_capacity places.new ≡ vec_capacity places.old }
{
    places.push(Place::Lost(loss));
}

/// How many bytes the records have.
pub(crate) fn bytes_of(records: &[Bytes]) -> u64
    requires small { bytes_in records.now < 2 ^ 64 }
    ensures { result ≡ bytes_in records.now }
{
    let mut bytes = 0;
    for record in records {
        bytes += record.len() as u64;
    }
    bytes
}
