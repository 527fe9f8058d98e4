//! The restart limit of a pipeline: at most `max` restarts within a window of milliseconds.
//!
//! A `Restarts` keeps the times of the last `max` restarts. That is enough to answer `may` exactly as if it kept the
//! times of all restarts that were ever made. Memory is taken in `new` alone.
#![tactic(auto)]

ghost use Rattle.std.specs.Prelude.{◌≡◌, ℕ, ◌<◌, ◌≤◌, List, [], ◌∷◌, All, IfOk};
ghost use Rattle.pipe_types.specs.Restarts.{may_restart_at};
ghost use Rattle.restart_core.specs.Restarts.{Remembers};

use std::alloc::{AllocError, Global};
use std::collections::VecDeque;
use std::marker::Model;

/// The last restarts, and how many of them may lie within the window.
#[derive(Drop)]
pub struct Restarts {
    max: u32,
    window_ms: u64,
    times: VecDeque<u64>,
}

impl Model for Restarts {
    ghost use Rattle.std.specs.Prelude.{◌≤◌};
    ghost use Rattle.std.specs.VecDeque.{deque_len, deque_capacity};
    ghost use Rattle.restart_core.specs.Restarts.{RestartLimit};

    ghost Value = { RestartLimit };

    ghost view = { λ r. record { max = r.max; window = r.window_ms; times = r.times.items } };

    ghost invariant = { λ r. (deque_len r.times ≤ r.max) × (r.max ≤ deque_capacity r.times) };
}

impl Restarts {
    /// A limit of `max` restarts within `window_ms` milliseconds, with room for `max` times. None was made yet.
    pub fn new(alloc: Global, max: u32, window_ms: u64) -> Result<Self, AllocError>
        ensures limit { IfOk result (λ limit. limit ≡ record { max = max; window = window_ms; times = [] }) }
        ensures none_made { IfOk result (λ limit. Remembers limit []) }
    {
        Ok(Restarts {
            max,
            window_ms,
            times: VecDeque::with_capacity(alloc, max as usize)?,
        })
    }

    /// Whether a restart may be made now: fewer than `max` restarts count whose window has not passed.
    #[tactic(auto, using(crate::proofs::LastRestarts::may_with_room))]
    pub fn may(&self, now: u64) -> bool
        ensures { (made : List ℕ) → Remembers self.now made →
            result ≡ may_restart_at self.now.max self.now.window now made }
    {
        if self.times.len() < self.max as usize {
            return true;
        }
        match self.times.back() {
            Some(oldest) => oldest.saturating_add(self.window_ms) < now,
            None => false,
        }
    }

    /// Notes a restart that is made now. The limit is not 0, as wherever `may` answered yes.
    pub fn made(&mut self, now: u64)
        requires allowed { 0 < self.old.max }
        requires latest { All (λ t. t ≤ now) self.old.times }
        ensures limit { (self.new.max ≡ self.old.max) × (self.new.window ≡ self.old.window) }
        ensures latest { All (λ t. t ≤ now) self.new.times }
        ensures remembered { (made : List ℕ) → Remembers self.old made → Remembers self.new (now ∷ made) }
    {
        self.times.truncate(self.max as usize - 1);
        self.times.push_front_reserved(now);
    }
}
