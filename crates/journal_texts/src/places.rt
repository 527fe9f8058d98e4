//! What the places of the messages come to.

ghost use Rattle.std.specs.{Prelude.{◌≡◌, ◌≤◌, ◌++◌, IfOk, OnOk, cond, count_by, map, length, option_to_list, vec_len}, List.{filter_map}};
ghost use Rattle.journal_texts.specs.Report.{loss_of as loss_of_place, is_successful as is_success, is_overflow, is_killed};

use core_tables::place_table::PlaceTable;
use pipe_types::message::{Loss, Outcome, Place};
use pipe_types::numbers::StageNo;
use std::alloc::{AllocError, Global};

fn is_successful(place: &Place) -> bool
    ensures { result ≡ is_success place.now }
{
    matches!(place, Place::Acked(Outcome::Successful))
}

fn loss_of(place: &Place) -> Option<Loss>
    ensures { result ≡ loss_of_place place.now }
{
    match place {
        Place::Lost(loss) => Some(*loss),
        _ => None,
    }
}

/// 1 where it is so, and else 0.
pub(crate) fn one_if(is: bool) -> usize
    ensures { result ≡ cond is 1 0 }
{
    if is { 1 } else { 0 }
}

/// How many messages succeeded.
pub(crate) fn successes(places: &PlaceTable) -> usize
    ensures { result ≡ count_by is_success places.now.items }
{
    let mut count = 0;
    for at in 0..places.len() {
        count += one_if(is_successful(&places.read(at)));
    }
    count
}

/// Puts the loss behind the others, if there is one.
fn add_loss(found: &mut Vec<Loss>, loss: Option<Loss>) -> Result<(), AllocError>
    ensures { OnOk result (found.new.items ≡ found.old.items ++ option_to_list loss) }
{
    if let Some(loss) = loss {
        found.push(loss)?;
    }
    Ok(())
}

/// How the lost messages were lost, in order of their numbers.
pub(crate) fn losses(alloc: Global, places: &PlaceTable) -> Result<Vec<Loss>, AllocError>
    ensures { IfOk result (λ found. found.items ≡ filter_map loss_of_place places.now.items) }
{
    let mut found = Vec::new(alloc);
    for at in 0..places.len() {
        add_loss(&mut found, loss_of(&places.read(at)))?;
    }
    Ok(found)
}

/// How many of them went over the size of the stage's buffer.
pub(crate) fn overflows(losses: &[Loss], stage: StageNo) -> usize
    ensures { result ≡ count_by (is_overflow stage) losses.now }
{
    losses
        .iter()
        .filter(|loss| matches!(loss, Loss::Overflow(at) if at.0 == stage.0))
        .count()
}

/// How many of them were lost with an incarnation of the stage.
pub(crate) fn kills(losses: &[Loss], stage: StageNo) -> usize
    ensures { result ≡ count_by (is_killed stage) losses.now }
{
    losses
        .iter()
        .filter(|loss| matches!(loss, Loss::Killed(at, _, _) if at.0 == stage.0))
        .count()
}
