//! What is shown the journal of a pipe.

ghost use Rattle.std.specs.Prelude.{◌≡◌, IsTrue, false, is_ok, true};
ghost use Rattle.pipe_types.specs.declared.topology.Topology.{Topology};
ghost use Rattle.pipe_model.specs.{Begins.{BeginsWith}, History.{History}, Legal.{is_legal}};
ghost use Rattle.pipe_journal.specs.{Acked.{IsLog}, Watched.{StandsOn, is_failure}};
ghost use Rattle.core_state.specs.Stands.{Stands};
ghost use Rattle.run_pipe.specs.Watches.{HasSeen, KeepsWatch, WatchSeen, watch_seen};

use core_state::Core;
use pipe_journal::{Journal, Watch, WatchEnd};
use std::alloc::AllocError;

/// What is shown the journal, as a pipe knows it. Each `Watch` is.
pub trait Shown {
    /// What contracts see of it.
    ghost sight: { Self → WatchSeen };

    /// It suits this topology.
    ghost suits: { Self → Topology → Type 0 };

    /// It knows this journal.
    ghost knows: { Self → History → Type 0 };

    /// Shows it the journal, whose log is that of its steps, and of which it knows a part. For want of memory, and where it fails, it knows a part.
    fn show(&mut self, journal: &Journal) -> WatchEnd
        requires suits { (topology : Topology) × suits self.old topology × (is_legal topology journal.now.steps ≡ true) × IsLog topology journal.now.steps journal.now.acked.rows }
        requires knows { (earlier : History) × knows self.old earlier × BeginsWith journal.now.steps earlier }
        requires whole { (sight self.old).failed ≡ false }
        ensures suits { (topology : Topology) → suits self.old topology → suits self.new topology }
        ensures knows { StandsOn result (knows self.new) journal.now.steps }
        ensures failed { (sight self.new).failed ≡ is_failure result }
        ensures kept { KeepsWatch (sight self.old) (sight self.new) };
}

impl<W: Watch> Shown for W {
    ghost sight = { watch_seen W.begun W.failed W.faults };

    ghost suits = { W.fits };

    ghost knows = { W.stands };

    fn show(&mut self, journal: &Journal) -> WatchEnd
        requires suits { (topology : Topology) × W.fits self.old topology × (is_legal topology journal.now.steps ≡ true) × IsLog topology journal.now.steps journal.now.acked.rows }
        requires knows { (earlier : History) × W.stands self.old earlier × BeginsWith journal.now.steps earlier }
        requires whole { W.failed self.old ≡ false }
        ensures suits { (topology : Topology) → W.fits self.old topology → W.fits self.new topology }
        ensures knows { StandsOn result (W.stands self.new) journal.now.steps }
        ensures failed { W.failed self.new ≡ is_failure result }
        ensures kept { KeepsWatch (watch_seen W.begun W.failed W.faults self.old) (watch_seen W.begun W.failed W.faults self.new) }
    {
        self.seen(journal)
    }
}

/// Shows it the journal, of which it knows a part, unless it has failed before. The error is want of memory: it knows a part still.
pub(crate) fn show<W: Shown>(
    watch: &mut W,
    has_failed: &mut bool,
    core: &Core,
) -> Result<(), AllocError>
    requires stands { Stands core.now }
    requires suits { W.suits watch.old core.now.topology }
    requires part { (earlier : History) × W.knows watch.old earlier × BeginsWith core.now.journal.steps earlier }
    requires known { has_failed.old ≡ (W.sight watch.old).failed }
    ensures seen { HasSeen (W.suits watch.new) (W.knows watch.new) (W.sight watch.new).failed (IsTrue (is_ok result)) core.now.topology core.now.journal.steps }
    ensures kept { KeepsWatch (W.sight watch.old) (W.sight watch.new) }
    ensures known { has_failed.new ≡ (W.sight watch.new).failed }
{
    if *has_failed {
        return Ok(());
    }
    match watch.show(core.journal()) {
        WatchEnd::Done => Ok(()),
        WatchEnd::Failed => {
            *has_failed = true;
            Ok(())
        }
        WatchEnd::OutOfMemory => Err(AllocError),
    }
}
