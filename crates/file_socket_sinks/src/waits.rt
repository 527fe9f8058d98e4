//! How long a read waits where nothing is there yet.

use mio::unix::SourceFd;
use mio::{Events, Interest, Poll, Token};
use std::alloc::Global;
use std::io;
use std::os::fd::RawFd;
use std::time::Duration;

/// What the system answers for a descriptor that never has to be waited for, as that of a regular file.
const NOT_PERMITTED: i32 = 1;

/// The name of the one descriptor that is waited for.
const OWN: Token = Token(0);

/// How long a read waits at most, in milliseconds.
#[derive(Clone, Copy)]
pub struct Patience {
    /// After a read that found something.
    pub first_ms: u64,
    /// After many that found nothing: each of these doubles the time, up to this one.
    pub longest_ms: u64,
}

/// Tries of a stage's source are ever further apart, up to a second, while nothing comes.
pub const OF_STAGES: Patience = Patience {
    first_ms: 50,
    longest_ms: 1_000,
};

/// A reading of the control source never waits.
pub const OF_CONTROL: Patience = Patience {
    first_ms: 0,
    longest_ms: 0,
};

/// A reading of one of several sources never waits, since the others are read between its readings.
pub const OF_STREAMS: Patience = Patience {
    first_ms: 0,
    longest_ms: 0,
};

/// Waits for one descriptor.
#[derive(Drop)]
pub struct Waits {
    poll: Poll,
    events: Events<Global>,
    patience: Patience,
    next_ms: u64,
}

impl Waits {
    /// None where the descriptor never has to be waited for.
    pub fn new(rt: &HostRuntime, fd: RawFd, patience: Patience) -> io::Result<Option<Waits>> {
        let poll = Poll::new(rt)?;
        let registered = poll
            .registry()
            .register(&mut SourceFd(&fd), OWN, Interest::READABLE);
        match registered {
            Ok(()) => Ok(Some(Waits {
                poll,
                events: Events::with_capacity(rt.alloc(), 1)?,
                patience,
                next_ms: patience.first_ms,
            })),
            Err(e) if e.raw_os_error() == Some(NOT_PERMITTED) => Ok(None),
            Err(e) => Err(e),
        }
    }

    /// Whether there is something to read, or an end, once it waited as long as its patience lasts.
    pub fn is_ready(&mut self, fd: RawFd) -> io::Result<bool> {
        self.poll
            .registry()
            .reregister(&mut SourceFd(&fd), OWN, Interest::READABLE)?;
        let time = Duration::from_millis(self.next_ms);
        self.poll.poll(&mut self.events, Some(time))?;
        let is_ready = !self.events.is_empty();
        self.next_ms = if is_ready {
            self.patience.first_ms
        } else {
            self.next_ms.saturating_mul(2).min(self.patience.longest_ms)
        };
        Ok(is_ready)
    }
}
