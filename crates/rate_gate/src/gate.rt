//! How many records are left in an interval.

ghost use Rattle.std.specs.Prelude.{◌≡◌, ◌<◌, ◌≤◌, ◌+◌, ℕ};
ghost use Rattle.pipe_edges.specs.Paces.{given_since};

/// A share of records for each interval, and what was given since the interval of the last moment began.
#[derive(Drop)]
pub struct Gate {
    share: u32,
    interval: u64,
    moment: u64,
    given: u32,
    ghost some: { 0 < interval },
    ghost within: { given ≤ share },
}

impl Gate {
    ghost use Rattle.rate_gate.specs.Gate.{pace_of, moment_of, given_of};

    /// At moment 0, with the whole share left, for intervals of so many milliseconds.
    pub fn new(share: u32, interval: u64) -> Gate
        requires some { (1 ≤ share) × (1 ≤ interval) }
        ensures pace { pace_of result ≡ record { share = share; interval = interval } }
        ensures begun { (moment_of result ≡ 0) × (given_of result ≡ 0) }
    {
        Gate {
            share,
            interval,
            moment: 0,
            given: 0,
        }
    }

    /// Tells the moment in milliseconds. In a new interval the whole share is left.
    pub fn at(&mut self, now: u64)
        requires { moment_of self.old ≤ now }
        ensures same_pace { pace_of self.new ≡ pace_of self.old }
        ensures moment { moment_of self.new ≡ now }
        ensures given { given_of self.new ≡ given_since (pace_of self.old).interval (moment_of self.old) now (given_of self.old) }
    {
        if self.moment / self.interval != now / self.interval {
            self.given = 0;
        }
        self.moment = now;
    }

    /// The moment that was told last, 0 before the first.
    pub fn moment(&self) -> u64
        ensures { result ≡ moment_of self.now }
    {
        self.moment
    }

    /// How many records the share has left.
    pub fn left(&self) -> u32
        ensures { result + given_of self.now ≡ (pace_of self.now).share }
    {
        self.share - self.given
    }

    /// Uses one of them.
    pub fn used(&mut self)
        requires { given_of self.old < (pace_of self.old).share }
        ensures same_pace { pace_of self.new ≡ pace_of self.old }
        ensures same_moment { moment_of self.new ≡ moment_of self.old }
        ensures given { given_of self.new ≡ given_of self.old + 1 }
    {
        self.given += 1;
    }
}
