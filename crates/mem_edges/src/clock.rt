//! A clock in memory.

ghost use Rattle.std.specs.Prelude.{◌≡◌, ◌+◌, ◌^◌, ◌-◌, min, max};
ghost use Rattle.pipe_types.specs.Counts.{Rose};
ghost use Rattle.mem_edges.specs.Scripts.{counted_once};

use pipe_edges::Clock;

/// A clock that answers `at` and goes on by `step` at each reading and by `nap` at each pause, all in
/// milliseconds. Its time stops at the last value of its type.
#[derive(Clone, Copy, PartialEq, Eq)]
pub struct MemClock {
    pub at: u64,
    pub step: u64,
    pub nap: u64,
    pub latest: u64,
    pub readings: u64,
    pub pauses: u64,
}

impl Clock for MemClock {
    ghost latest = { λ c. c.latest };

    ghost readings = { λ c. c.readings };

    ghost pauses = { λ c. c.pauses };

    fn now(&mut self) -> u64
        ensures latest { self.new.latest ≡ max self.old.latest result }
        ensures readings { Rose self.old.readings self.new.readings }
        ensures pauses { self.new.pauses ≡ self.old.pauses }
        ensures answer { result ≡ self.old.at }
        ensures steps { self.new.at ≡ min (self.old.at + self.old.step) (2 ^ 64 - 1) }
        ensures counted { self.new.readings ≡ counted_once self.old.readings }
        ensures rest { (self.new.step ≡ self.old.step) × (self.new.nap ≡ self.old.nap) }
    {
        let now = self.at;
        self.at = self.at.saturating_add(self.step);
        self.latest = self.latest.max(now);
        self.readings = self.readings.saturating_add(1);
        now
    }

    fn pause(&mut self)
        ensures latest { self.new.latest ≡ self.old.latest }
        ensures readings { self.new.readings ≡ self.old.readings }
        ensures pauses { Rose self.old.pauses self.new.pauses }
        ensures naps { self.new.at ≡ min (self.old.at + self.old.nap) (2 ^ 64 - 1) }
        ensures counted { self.new.pauses ≡ counted_once self.old.pauses }
        ensures rest { (self.new.step ≡ self.old.step) × (self.new.nap ≡ self.old.nap) }
    {
        self.at = self.at.saturating_add(self.nap);
        self.pauses = self.pauses.saturating_add(1);
    }
}
