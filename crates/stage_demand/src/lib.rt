//! The demand of one subscription: how many units its consumer asked for, how many arrived and how many it handled.
//!
//! A `Demand` keeps its counts in order, `handled <= arrived <= asked`, with at most `max` units asked for and not
//! handled. `due` and `left` are exact, and each other call adds to one count alone. No call takes memory.
#![tactic(auto)]

ghost use Rattle.std.specs.Prelude.{◌≡◌, ◌+◌, ◌-◌, ◌^◌, ◌<◌, ◌≤◌};
ghost use Rattle.stage_demand.specs.declared.TheConstants.{MAX_DEMAND};

/// The most units that a consumer may have asked for and not handled.
pub const MAX_DEMAND: u32 = 10_000;

/// The counts of one subscription, in units, and the bounds of its demand.
#[derive(Clone, Copy, PartialEq, Eq)]
pub struct Demand {
    min: u32,
    max: u32,
    asked: u64,
    arrived: u64,
    handled: u64,
    pub ghost min_below_max: { min < max },
    pub ghost max_in_range: { max ≤ MAX_DEMAND },
    pub ghost handled_arrived: { handled ≤ arrived },
    pub ghost arrived_asked: { arrived ≤ asked },
    pub ghost within_max: { asked ≤ handled + max },
}

impl Demand {
    ghost use Rattle.stage_demand.specs.Demand.{counts_of, due_of};

    /// A subscription on which nothing was asked for yet.
    pub fn new(min: u32, max: u32) -> Self
        requires min_below_max { min < max }
        requires max_in_range { max ≤ MAX_DEMAND }
        ensures { counts_of result ≡ record { min = min; max = max; asked = 0; arrived = 0; handled = 0 } }
    {
        Demand {
            min,
            max,
            asked: 0,
            arrived: 0,
            handled: 0,
        }
    }

    /// The size of the ask that is due, in units, or 0 where none is.
    pub fn due(&self) -> u32
        ensures { result ≡ due_of (counts_of self.now) }
    {
        let pending = (self.asked - self.handled) as u32;
        if pending <= self.min {
            self.max - pending
        } else {
            0
        }
    }

    /// The open demand: how many units were asked for and did not arrive.
    pub fn left(&self) -> u32
        ensures { result ≡ (counts_of self.now).asked - (counts_of self.now).arrived }
    {
        (self.asked - self.arrived) as u32
    }

    /// Counts an ask for `n` more units.
    pub fn asked(&mut self, n: u32)
        requires within_max { let counts = counts_of self.old in
            (counts.asked - counts.handled) + n ≤ counts.max }
        requires fits { (counts_of self.old).asked + n < 2 ^ 64 }
        ensures { let counts = counts_of self.old in
            counts_of self.new ≡ record counts { asked = counts.asked + n } }
    {
        self.asked += n as u64;
    }

    /// Counts `k` units that arrived.
    pub fn arrived(&mut self, k: u32)
        requires { (counts_of self.old).arrived + k ≤ (counts_of self.old).asked }
        ensures { let counts = counts_of self.old in
            counts_of self.new ≡ record counts { arrived = counts.arrived + k } }
    {
        self.arrived += k as u64;
    }

    /// Counts `k` units that arrived before and are handled now.
    pub fn handled(&mut self, k: u32)
        requires { (counts_of self.old).handled + k ≤ (counts_of self.old).arrived }
        ensures { let counts = counts_of self.old in
            counts_of self.new ≡ record counts { handled = counts.handled + k } }
    {
        self.handled += k as u64;
    }
}
