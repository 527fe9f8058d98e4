//! Which messages the jobs have that are out.

ghost use Rattle.std.specs.Prelude.{◌≡◌};
ghost use Rattle.line_reading.specs.Lines.{Jobs};

use pipe_types::numbers::{MsgNo, Post, StageNo};

/// Knows the messages of jobs. A line that tells what a message became does not have its number and its producer.
pub trait JobMessages {
    ghost jobs: { Self → Jobs };

    /// The message at this place, from 0, of the job that is out there. None where there is no such job or no such place.
    fn message_at(&self, post: Post, at: usize) -> Option<(MsgNo, StageNo)>
        ensures { result ≡ jobs self.now post at };
}
