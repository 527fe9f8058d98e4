//! The clock that a run reads.

ghost use Rattle.std.specs.Prelude.{◌≡◌, ℕ, max};
ghost use Rattle.pipe_types.specs.Counts.{Rose};

/// A clock. A reading below the last one is taken as the last one by the caller.
pub trait Clock {
    /// The greatest reading that it has answered, 0 before the first.
    ghost latest: { Self → ℕ };

    /// How often it was read.
    ghost readings: { Self → ℕ };

    /// How often it paused.
    ghost pauses: { Self → ℕ };

    /// The time in milliseconds.
    fn now(&mut self) -> u64
        ensures latest { latest self.new ≡ max (latest self.old) result }
        ensures readings { Rose (readings self.old) (readings self.new) }
        ensures pauses { pauses self.new ≡ pauses self.old };

    /// Lets some time pass.
    fn pause(&mut self)
        ensures latest { latest self.new ≡ latest self.old }
        ensures readings { readings self.new ≡ readings self.old }
        ensures pauses { Rose (pauses self.old) (pauses self.new) };

    /// Lets about so many milliseconds pass, where it can tell how many; else some time.
    fn pause_for(&mut self, ms: u64)
        ensures latest { latest self.new ≡ latest self.old }
        ensures readings { readings self.new ≡ readings self.old }
        ensures pauses { Rose (pauses self.old) (pauses self.new) }
    {
        let _ = ms;
        self.pause();
    }
}
