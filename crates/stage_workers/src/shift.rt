//! What a worker needs of the value that it takes in turn.

ghost use Rattle.std.specs.Prelude.{◌≡◌, ◌≢◌, true, Some, IfSome};
ghost use Rattle.pipe_types.specs.declared.numbers.Post.{Post};
ghost use Rattle.pipe_model.specs.{History.{History}, Posts.{is_out}, Begins.{BeginsWith}};
ghost use Rattle.pipeline_turn.specs.Jobs.{IsUnanswered, IsUndone, IsOwnJob, AreAway};
ghost use Rattle.stage_workers.specs.Rounds.{IfJob, job_post, brought_post};

use pipe_types::numbers::Post;
use pipeline_turn::Held;
use std::alloc::Global;

/// What a worker does after a round.
#[derive(Drop)]
pub enum Round<L> {
    /// It goes away with this job.
    Job(L),
    /// There is nothing to do until another job comes home.
    Waits,
    /// There may be something to do now.
    Again,
    /// There is nothing to do any more.
    Ended,
}

/// What another worker would do in a value that one goes away from, as far as that can be told without doing it.
#[derive(Clone, Copy, PartialEq, Eq)]
pub enum Ahead {
    /// It would sleep: nothing is new.
    Nothing,
    /// What is soon done, or to keep the time.
    Little,
    /// A job that may take long.
    Job,
}

/// A value of which workers take jobs away, and bring home what comes of them.
pub trait Shift: Held {
    /// A job, with what it needs.
    type Load;

    /// What comes of a job.
    type Home;

    ghost load_post: { Self.Load → Post };

    ghost home_post: { Self.Home → Post };

    /// The job is away from a value that comes from that start and has those steps.
    ghost is_load_of: { Self.Start → History → Self.Load → Type 0 };

    /// This comes home of a job that is away from such a value.
    ghost is_home_of: { Self.Start → History → Self.Home → Type 0 };

    /// Between these two values what came home was recorded.
    ghost is_recorded: { Self → Self → Self.Home → Type 0 };

    fn post(load: &Self::Load) -> Post
        ensures { result ≡ load_post load.now };

    /// Takes in what is brought, does what is to do without a worker, and begins the next job, or tells why there is none. What is
    /// brought may be of a job that went away after fewer steps, which nobody has answered since.
    fn round(&mut self, brought: Option<Self::Home>) -> Round<Self::Load>
        requires home { (origin : Self.Start) × (seen : History) × Self.stems origin self.old × IfSome brought (λ home. is_home_of origin seen home × IsUndone (Self.steps self.old) seen (home_post home)) }
        ensures stems { (origin : Self.Start) → (seen : History) → Self.stems origin self.old → IfSome brought (λ home. is_home_of origin seen home × IsUndone (Self.steps self.old) seen (home_post home))
            → Self.stems origin self.new }
        ensures load { (origin : Self.Start) → (seen : History) → Self.stems origin self.old → IfSome brought (λ home. is_home_of origin seen home × IsUndone (Self.steps self.old) seen (home_post home))
            → IfJob result (is_load_of origin (Self.steps self.new)) }
        ensures begins { BeginsWith (Self.steps self.new) (Self.steps self.old) }
        ensures others_unanswered { (post : Post) → is_out (Self.steps self.old) post ≡ true → brought_post home_post brought ≢ Some post → IsUnanswered (Self.steps self.new) (Self.steps self.old) post }
        ensures own_job { IfSome (job_post load_post result) (λ post. IsOwnJob (brought_post home_post brought) (Self.steps self.old) (Self.steps self.new) post) }
        ensures away { AreAway (brought_post home_post brought) (job_post load_post result) (Self.away self.old) (Self.away self.new) }
        ensures recorded { IfSome brought (is_recorded self.old self.new) };

    /// What another worker would do now.
    fn ahead(&self) -> Ahead {
        Ahead::Job
    }

    /// Does the job.
    fn run(alloc: Global, load: Self::Load) -> Self::Home
        requires away { (origin : Self.Start) × (seen : History) × is_load_of origin seen load }
        ensures post { home_post result ≡ load_post load }
        ensures home { (origin : Self.Start) → (seen : History) → is_load_of origin seen load → is_home_of origin seen result };
}
