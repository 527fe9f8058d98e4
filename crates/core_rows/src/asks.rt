//! The asks that are due.

ghost use Rattle.std.specs.Prelude.{◌≡◌, Some, None, Option, find, nat_lt};
ghost use Rattle.pipe_types.specs.Stages.{spec_of};
ghost use Rattle.pipe_model.specs.{Ledger.{due}, Moves.{all_subs, subs_into}};
ghost use Rattle.core_state.specs.Stands.{Stands};
ghost use Rattle.core_rows.specs.Rows.{is_due, due_between, sub_if_due};

use core_state::Core;
use pipe_types::numbers::SubNo;
use pipe_types::topology::StageSpec;
use stage_subs::Subs;

/// The first subscription on which an ask is due.
pub fn first_due(core: &Core) -> Option<SubNo>
    requires stands { Stands core.now }
    ensures { result ≡ find (is_due core.now.topology core.now.journal.steps) (all_subs core.now.topology core.now.journal.steps) }
{
    if !core.subs.has_due() {
        return None;
    }
    for spec in core.topology.stages.as_slice() {
        if let Some(sub) = first_due_of(core, spec) {
            return Some(sub);
        }
    }
    None
}

/// The first subscription of the consumer on which an ask is due.
fn first_due_of(core: &Core, consumer: &StageSpec) -> Option<SubNo>
    requires stands { Stands core.now }
    requires there { spec_of core.now.topology consumer.now.no ≡ Some consumer.now }
    ensures { result ≡ find (is_due core.now.topology core.now.journal.steps) (subs_into core.now.topology core.now.journal.steps consumer.now.no core.now.topology.stages) }
{
    for spec in core.topology.stages.as_slice() {
        if let Some(sub) = due_on_pair(core, consumer, spec) {
            return Some(sub);
        }
    }
    None
}

/// The present subscription of the pair, where the consumer takes from the producer and an ask is due.
fn due_on_pair(core: &Core, consumer: &StageSpec, producer: &StageSpec) -> Option<SubNo>
    requires stands { Stands core.now }
    requires to { spec_of core.now.topology consumer.now.no ≡ Some consumer.now }
    requires from { spec_of core.now.topology producer.now.no ≡ Some producer.now }
    ensures { result ≡ due_between core.now.topology core.now.journal.steps consumer.now.no producer.now.no }
{
    if !producer.feeds(consumer) {
        return None;
    }
    match core.subs.live_of(consumer.no, producer.no) {
        Some(sub) => if_due(&core.subs, sub),
        None => None,
    }
}

/// The subscription, where an ask is due on it.
fn if_due(subs: &Subs, sub: SubNo) -> Option<SubNo>
    ensures { result ≡ sub_if_due subs.now sub }
{
    if subs.due(sub) > 0 { Some(sub) } else { None }
}
