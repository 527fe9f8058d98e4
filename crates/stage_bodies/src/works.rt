//! A body as a pipeline sees it.

ghost use Rattle.std.specs.Prelude.{◌≡◌, OnErr, IfOk};
ghost use Rattle.stage_bodies.specs.{Seen.{BodySeen}, Moments.{told_body}, Jobs.{Fits, IsDone, IsCutOff, IsResetBody}};

use crate::job::{Answer, Job};
use std::alloc::{AllocError, Global};

/// What does the jobs of a post.
pub trait Works: Drop {
    /// What is seen of its source, its sink and its callback.
    ghost look: { Self → BodySeen };

    /// Does the job. All its memory is taken before the first byte is written. The error is want of memory: the job is then
    /// gone.
    fn run_job(&mut self, alloc: Global, job: Job) -> Result<Answer, AllocError>
        requires { Fits job.work (look self.old) }
        ensures post { IfOk result (λ answer. (answer.post ≡ job.post) × (answer.incarnation ≡ job.incarnation)) }
        ensures done { IfOk result (λ answer. IsDone job.work answer.outcome (look self.old) (look self.new)) }
        ensures cut_off { OnErr result (IsCutOff (look self.old) (look self.new)) };

    /// Has its callback count from 0 again. It takes no memory.
    fn reset(&mut self)
        ensures { IsResetBody (look self.old) (look self.new) };

    /// Tells its source the moment in milliseconds, if it has a source.
    fn at(&mut self, now: u64)
        ensures { look self.new ≡ told_body now (look self.old) };
}
