//! The system's clock.

ghost use Rattle.std.specs.Prelude.{◌≡◌, ℕ};
ghost use Rattle.pipe_edges.specs.Named.{KeepsBack};

use crate::arrivals::Arrivals;
use crate::edges::RealEdges;
use pipe_edges::{Clock, Edges};
use std::rt::Clock as SystemClock;
use std::time::Duration;

/// How long a pause is.
const PAUSE_MS: u64 = 1;

/// Milliseconds since it was made, by a clock that never goes back. Where the system's cannot be read, it answers the
/// greatest reading so far. A pause ends early where something arrives at a stream that it hears of.
#[derive(Drop)]
pub struct RealClock {
    rt: HostRuntime,
    start: Duration,
    latest: u64,
    readings: u64,
    pauses: u64,
    arrivals: Option<Arrivals>,
}

impl RealClock {
    /// Its pauses last as long as they are asked to.
    pub fn new(rt: &HostRuntime) -> RealClock
        ensures latest { ⟦<RealClock as Clock>⟧.latest result ≡ 0 }
        ensures readings { ⟦<RealClock as Clock>⟧.readings result ≡ 0 }
        ensures pauses { ⟦<RealClock as Clock>⟧.pauses result ≡ 0 }
    {
        RealClock {
            rt: *rt,
            start: rt.monotonic().unwrap_or(Duration::ZERO),
            latest: 0,
            readings: 0,
            pauses: 0,
            arrivals: None,
        }
    }

    /// Its pauses end where something arrives at the control source or at a stream that these edges open by `open_stream`
    /// from now on. Where the system refuses that, they last as long as they are asked to.
    pub fn woken_by(rt: &HostRuntime, edges: &mut RealEdges) -> RealClock
        ensures latest { ⟦<RealClock as Clock>⟧.latest result ≡ 0 }
        ensures readings { ⟦<RealClock as Clock>⟧.readings result ≡ 0 }
        ensures pauses { ⟦<RealClock as Clock>⟧.pauses result ≡ 0 }
        ensures faults { ⟦<RealEdges as Edges>⟧.faults edges.new ≡ ⟦<RealEdges as Edges>⟧.faults edges.old }
        ensures back { KeepsBack ⟦<RealEdges as Edges>⟧.sources_back ⟦<RealEdges as Edges>⟧.sinks_back edges.old edges.new }
    {
        let mut clock = RealClock::new(rt);
        if let Ok(arrivals) = Arrivals::new(rt)
            && let Ok(noted) = arrivals.noted()
        {
            edges.note_in(noted);
            clock.arrivals = Some(arrivals);
        }
        clock
    }

    fn reading(&self) -> u64 {
        match self.rt.monotonic() {
            Ok(time) => {
                let passed = time.saturating_sub(self.start);
                u64::try_from(passed.as_millis()).unwrap_or(u64::MAX)
            }
            Err(_) => self.latest,
        }
    }
}

impl Clock for RealClock {
    ghost latest = { λ c. c.latest };

    ghost readings = { λ c. c.readings };

    ghost pauses = { λ c. c.pauses };

    fn now(&mut self) -> u64 {
        let now = self.reading();
        self.latest = self.latest.max(now);
        self.readings = self.readings.saturating_add(1);
        now
    }

    fn pause(&mut self) {
        self.pause_for(PAUSE_MS);
    }

    fn pause_for(&mut self, ms: u64) {
        let is_over = match &mut self.arrivals {
            Some(arrivals) => arrivals.wait(ms).is_ok(),
            None => false,
        };
        if !is_over {
            self.rt.sleep(Duration::from_millis(ms));
        }
        self.pauses = self.pauses.saturating_add(1);
    }
}
