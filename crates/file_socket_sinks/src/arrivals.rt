//! What arrives at streams while a run pauses.

use mio::unix::SourceFd;
use mio::{Events, Interest, Poll, Registry, Token};
use std::alloc::Global;
use std::io;
use std::os::fd::RawFd;
use std::time::Duration;

/// The name of every stream: which of them something arrived at is told by its next read.
const ANY: Token = Token(0);

/// How many streams a pause hears of at once.
const MANY: usize = 64;

/// Waits for what arrives at any of the streams that are noted.
#[derive(Drop)]
pub struct Arrivals {
    poll: Poll,
    events: Events<Global>,
}

impl Arrivals {
    pub fn new(rt: &HostRuntime) -> io::Result<Arrivals> {
        Ok(Arrivals {
            poll: Poll::new(rt)?,
            events: Events::with_capacity(rt.alloc(), MANY)?,
        })
    }

    /// Where streams are noted.
    pub fn noted(&self) -> io::Result<Noted> {
        Ok(Noted {
            registry: Some(self.poll.registry().try_clone()?),
        })
    }

    /// Lets so many milliseconds pass, or fewer where something arrives: more bytes, a peer or an end.
    pub fn wait(&mut self, ms: u64) -> io::Result<()> {
        self.poll
            .poll(&mut self.events, Some(Duration::from_millis(ms)))
    }
}

/// The streams whose arrivals end a pause; without a registry there are none.
#[derive(Drop)]
pub struct Noted {
    registry: Option<Registry>,
}

impl Noted {
    pub fn none() -> Noted {
        Noted { registry: None }
    }

    /// Notes a stream until it is closed. One that cannot be noted, as a regular file, ends no pause.
    pub fn add(&self, fd: RawFd) {
        if let Some(registry) = &self.registry {
            let _ = registry.register(&mut SourceFd(&fd), ANY, Interest::READABLE);
        }
    }

    /// The same streams, or none where the system refuses it.
    pub fn share(&self) -> Noted {
        match &self.registry {
            Some(registry) => Noted {
                registry: registry.try_clone().ok(),
            },
            None => Noted::none(),
        }
    }
}
