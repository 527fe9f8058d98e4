//! Whether a batcher may gather what stands first in its inbox.

ghost use Rattle.std.specs.Prelude.{◌≡◌, ◌≤◌, ◌-◌, ◌&&◌, nat_le, Some, slice_get};
ghost use Rattle.pipe_types.specs.Stages.{spec_of};
ghost use Rattle.pipe_model.specs.{Content.{key_in, content}, Lives.{is_live}, Flow.{inbox, open_batch_by, view_of}};
ghost use Rattle.pipe_model.specs.Legal.{may_gather, lets_in, is_batcher_role, first_unit as first_number};
ghost use Rattle.batcher.specs.Batches.{fits as key_fits};
ghost use Rattle.core_tables.specs.Tables.{items_in};
ghost use Rattle.core_state.specs.Stands.{Stands};
ghost use Rattle.core_laws.specs.Contents.{passed_by};
ghost use Rattle.core_moves.specs.Gathers.{may_gather_now, first_by};

use batcher::Batcher;
use core_rows::rooms::has_room;
use core_state::Core;
use core_state::contents::{content_at, message_at};
use core_tables::rows::ContentRow;
use pipe_journal::Journal;
use pipe_types::numbers::{StageNo, SubNo};
use pipe_types::topology::{Role, StageSpec};
use std::collections::VecDeque;

/// Whether the stage is a batcher that may gather the first message of its inbox.
pub(crate) fn may_gather_first(core: &Core, spec: &StageSpec) -> bool
    requires stands { Stands core.now }
    requires there { spec_of core.now.topology spec.now.no ≡ Some spec.now }
    ensures { result ≡ may_gather core.now.topology core.now.journal.steps spec.now.no (first_number (inbox core.now.topology core.now.journal.steps spec.now.no)) }
{
    if is_batcher(spec.role) {
        return is_gather_next(core, spec);
    }
    false
}

fn is_batcher(role: Role) -> bool
    ensures { result ≡ is_batcher_role role }
{
    matches!(role, Role::Batcher)
}

fn is_gather_next(core: &Core, spec: &StageSpec) -> bool
    requires stands { Stands core.now }
    requires there { spec_of core.now.topology spec.now.no ≡ Some spec.now }
    ensures { result ≡ may_gather_now core.now.topology core.now.journal.steps spec.now (first_number (inbox core.now.topology core.now.journal.steps spec.now.no)) }
{
    let no = first_unit(core, spec.no);
    core.is_live(spec.no)
        && spec.role == Role::Batcher
        && 1 <= no
        && has_room(core, spec)
        && lets_in(core, spec, no)
}

/// The first unit of the stage's inbox, and 0 where that is empty.
pub fn first_unit(core: &Core, stage: StageNo) -> u32
    requires stands { Stands core.now }
    ensures { result ≡ first_number (inbox core.now.topology core.now.journal.steps stage) }
{
    first_of(&core.inboxes, stage.0 as usize)
}

/// The first unit of the queue, and 0 where that is empty or not there.
fn first_of(inboxes: &[VecDeque<(SubNo, u32)>], at: usize) -> u32
    ensures { result ≡ first_by (items_in (slice_get inboxes.now at)) }
{
    match inboxes.get(at) {
        Some(inbox) => match inbox.front() {
            Some(unit) => unit.1,
            None => 0,
        },
        None => 0,
    }
}

/// Whether the batcher's open batch of the message's key takes one more.
pub fn lets_in(core: &Core, spec: &StageSpec, no: u32) -> bool
    requires stands { Stands core.now }
    requires there { spec_of core.now.topology spec.now.no ≡ Some spec.now }
    requires least { 1 ≤ no }
    ensures { result ≡ lets_in core.now.topology core.now.journal.steps spec.now.no (open_batch_by core.now.journal.steps (view_of core.now.topology core.now.journal.steps) spec.now.no (key_in (content core.now.journal.steps no))) }
{
    let row = content_at(&core.contents, no);
    fits(&core.batchers[spec.no.0 as usize], &core.journal, row)
}

/// Whether the message that the journal has at that place fits in the batcher's open batch of its key.
fn fits(held: &Batcher, journal: &Journal, row: Option<ContentRow>) -> bool
    ensures { result ≡ key_fits held.now.batch_size (key_in (passed_by journal.now.steps row)) held.now.batches }
{
    match message_at(journal, row) {
        Some(message) => held.fits(message.key),
        None => held.fits(&[]),
    }
}
