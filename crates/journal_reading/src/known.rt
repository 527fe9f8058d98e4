//! The messages that a run knows.

ghost use Rattle.std.specs.Prelude.{◌≡◌};
ghost use Rattle.journal_reading.specs.Reads.{jobs_of};

use line_reading::JobMessages;
use pipe_types::numbers::{MsgNo, Post, StageNo};
use plain_run::PlainRun;

/// The messages of a run, or of none.
#[derive(Clone, Copy)]
pub(crate) struct Known<'a> {
    pub(crate) run: Option<&'a PlainRun>,
}

impl JobMessages for Known<'_> {
    ghost jobs = { λ known. jobs_of known.run };

    fn message_at(&self, post: Post, at: usize) -> Option<(MsgNo, StageNo)> {
        match self.run {
            Some(run) => run.message_at(post, at),
            None => None,
        }
    }
}
