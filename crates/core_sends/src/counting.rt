//! The demand of the subscriptions on which units were sent.

ghost use Rattle.std.specs.Prelude.{◌≡◌, ◌≤◌, All, true, option_map};
ghost use Rattle.pipe_types.specs.declared.numbers.StageNo.{StageNo as Stage};
ghost use Rattle.stage_subs.specs.Subs.{row_at, is_live, room_on, sent_more};
ghost use Rattle.core_tables.specs.Tables.{count_between};

use pipe_types::room::Sent;
use stage_subs::Subs;

/// Counts each unit as sent on its subscription.
pub(crate) fn count_all(subs: &mut Subs, units: &[Sent])
    requires live { All (λ d. is_live subs.old d.sub ≡ true) units.now }
    requires asked { All (λ d. count_between units.now d.sub.consumer d.sub.producer ≤ room_on subs.old d.sub) units.now }
    ensures { (c p : Stage) → row_at subs.new c p ≡ option_map (sent_more (count_between units.now c p)) (row_at subs.old c p) }
{
    for sent in units {
        subs.sent(sent.sub, 1);
    }
}
