//! A journal and a token for each stage, as a value that seats hand about.
ghost use Rattle.std.specs.Prelude.{◌≡◌, ◌≢◌, IfSome, IfOk, Some, None, true, [], Contains};
ghost use Rattle.pipe_types.specs.{declared.numbers.Post.{Post}, Numbers.{same_post, post as post_of}};
ghost use Rattle.pipe_model.specs.{Begins.{BeginsWith}, Posts.{answers, puts_out, is_out}};
ghost use Rattle.pipe_journal.specs.Views.{step_seen};
ghost use Rattle.turn_checks.specs.{Logged.{out_next}, Tokens.{away_from, brought_post, entry_post}};
ghost use Rattle.pipeline_turn.specs.Jobs.{IsUnanswered, IsOwnJob, AreAway};

use crate::tokens::{Job, Token, first_at_home, put_token, take_token, tokens};
use pipe_journal::{Journal, StepView};
use pipe_types::numbers::{Post, StageNo};
use pipe_types::step::Step;
use pipeline_turn::Held;
use std::alloc::{AllocError, Global};
use std::collections::LinkedList;

/// What a logbook began as. No value of it is made.
pub struct Opening {
    pub steps: LinkedList<Step>,
}

#[derive(Drop)]
pub struct Logbook {
    pub journal: Journal,
    /// The tokens of the stages from 0 on. None where a job has taken it along.
    pub tokens: Vec<Option<Token>>,
}

/// What came of a look into a value.
#[derive(Drop)]
pub enum Entry {
    /// The job was put out, and its token left with it.
    Out(Job),
    /// The job that was brought is answered and its token is back, or memory is wanting.
    Done,
    /// Nothing can be put out before a token comes back.
    Idle,
}

impl Entry {
    /// The post of the job that was put out.
    pub fn post(&self) -> Option<Post>
        ensures { result ≡ entry_post self.now }
    {
        match self {
            Entry::Out(job) => Some(job.post),
            Entry::Done => None,
            Entry::Idle => None,
        }
    }
}

/// A value in which a seat can note its job.
pub trait Logs: Held {
    /// Answers the job that is brought, and takes its token back. With none, puts out the post of the first stage whose
    /// token is there, and lets the token go with it. Nothing is put out or answered where memory is wanting.
    fn log(&mut self, brought: Option<Job>) -> Entry
        requires brought_away { IfSome (brought_post brought) (λ post. Contains (Self.away self.old) post) }
        ensures stems { (origin : Self.Start) → Self.stems origin self.old → Self.stems origin self.new }
        ensures begins { BeginsWith (Self.steps self.new) (Self.steps self.old) }
        ensures others_unanswered { (post : Post) → is_out (Self.steps self.old) post ≡ true → brought_post brought ≢ Some post → IsUnanswered (Self.steps self.new) (Self.steps self.old) post }
        ensures own_job { IfSome (entry_post result) (λ post. IsOwnJob (brought_post brought) (Self.steps self.old) (Self.steps self.new) post) }
        ensures away { AreAway (brought_post brought) (entry_post result) (Self.away self.old) (Self.away self.new) };
}

/// Whether the post is that of the stage's slot 0.
fn is_first(post: Post, stage: StageNo) -> bool
    ensures { result ≡ same_post post (post_of stage 0) }
{
    post.stage.0 == stage.0 && post.slot == 0
}

/// Whether the post is that of the slot.
fn is_slot(post: Post, stage: StageNo, slot: u16) -> bool
    ensures { result ≡ same_post post (post_of stage slot) }
{
    post.stage.0 == stage.0 && post.slot == slot
}

fn puts_out(step: StepView<'_>, post: Post) -> bool
    ensures { result ≡ puts_out (step_seen step.entry) post }
{
    match step {
        StepView::Fetch { stage, .. } | StepView::Take { stage, .. } => is_first(post, stage),
        StepView::Child { stage, slot, .. } => is_slot(post, stage, slot),
        _ => false,
    }
}

fn answers(step: StepView<'_>, post: Post) -> bool
    ensures { result ≡ answers (step_seen step.entry) post }
{
    match step {
        StepView::Accept { stage, .. }
        | StepView::Quiet { stage }
        | StepView::Done { stage, .. }
        | StepView::Wrote { stage, .. } => is_first(post, stage),
        StepView::SourceEnd { stage, .. } => stage.0 != 0 && is_first(post, stage),
        StepView::ChildEnd { stage, slot, .. } | StepView::Late { stage, slot, .. } => {
            is_slot(post, stage, slot)
        }
        _ => false,
    }
}

/// Whether the post is out after the step, where `before` says whether it was.
fn is_out_next(step: StepView<'_>, post: Post, before: bool) -> bool
    ensures { result ≡ out_next post before (step_seen step.entry) }
{
    puts_out(step, post) || (!answers(step, post) && before)
}

/// Whether the post is out after the steps of the journal.
fn is_out_after(journal: &Journal, post: Post) -> bool
    ensures { result ≡ is_out journal.now.steps post }
{
    let mut out = false;
    for at in 0..journal.len() {
        out = is_out_next(journal.view(at), post, out);
    }
    out
}

impl Held for Logbook {
    type Start = Opening;

    ghost start = { λ book. record { steps = book.journal.steps } };

    ghost stems = { λ opening book. BeginsWith book.journal.steps opening.steps };

    ghost steps = { λ book. book.journal.steps };

    ghost away = { λ book. away_from 0 book.tokens.items };

    fn journal(&self) -> &Journal {
        &self.journal
    }

    fn is_out(&self, post: Post) -> bool {
        is_out_after(&self.journal, post)
    }
}

impl Logbook {
    /// A logbook of so many stages.
    pub fn new(alloc: Global, stages: u16) -> Result<Logbook, AllocError>
        ensures none_away { IfOk result (λ book. away_from 0 book.tokens.items ≡ []) }
    {
        let tokens = tokens(alloc, stages)?;
        Ok(Logbook {
            journal: Journal::new(alloc),
            tokens,
        })
    }

    /// Notes the time, where memory is there for it.
    pub fn tick(&mut self, now: u64)
        ensures begins { BeginsWith self.new.journal.steps self.old.journal.steps }
        ensures unanswered { (post : Post) → IsUnanswered self.new.journal.steps self.old.journal.steps post }
        ensures tokens { self.new.tokens ≡ self.old.tokens }
    {
        if self.journal.reserve(1).is_ok() {
            self.journal.push_spare(Step::Tick { now });
        }
    }

    fn put_out(&mut self) -> Entry
        ensures begins { BeginsWith self.new.journal.steps self.old.journal.steps }
        ensures unanswered { (post : Post) → IsUnanswered self.new.journal.steps self.old.journal.steps post }
        ensures own_job { IfSome (entry_post result) (λ post. IsOwnJob None self.old.journal.steps self.new.journal.steps post) }
        ensures away { AreAway None (entry_post result) (away_from 0 self.old.tokens.items) (away_from 0 self.new.tokens.items) }
    {
        let Some(stage) = first_at_home(self.tokens.as_slice()) else {
            return Entry::Idle;
        };
        let post = Post { stage, slot: 0 };
        if is_out_after(&self.journal, post) || self.journal.reserve(1).is_err() {
            return Entry::Done;
        }
        match take_token(&mut self.tokens, stage) {
            Some(token) => {
                self.journal.push_spare(Step::Fetch { stage, n: 1 });
                Entry::Out(Job { post, token })
            }
            None => Entry::Idle,
        }
    }

    fn answer(&mut self, brought: Post)
        ensures begins { BeginsWith self.new.journal.steps self.old.journal.steps }
        ensures others_unanswered { (post : Post) → brought ≢ post → IsUnanswered self.new.journal.steps self.old.journal.steps post }
        ensures tokens { self.new.tokens ≡ self.old.tokens }
    {
        if brought.slot == 0 && self.journal.reserve(1).is_ok() {
            self.journal.push_spare(Step::Quiet {
                stage: brought.stage,
            });
        }
    }

    fn take_back(&mut self, job: Job)
        requires away { Contains (away_from 0 self.old.tokens.items) job.post }
        ensures journal { self.new.journal ≡ self.old.journal }
        ensures back { AreAway (Some job.post) None (away_from 0 self.old.tokens.items) (away_from 0 self.new.tokens.items) }
    {
        let Job { post, token } = job;
        put_token(&mut self.tokens, post.stage, token);
    }

    fn bring(&mut self, job: Job)
        requires away { Contains (away_from 0 self.old.tokens.items) job.post }
        ensures begins { BeginsWith self.new.journal.steps self.old.journal.steps }
        ensures others_unanswered { (post : Post) → job.post ≢ post → IsUnanswered self.new.journal.steps self.old.journal.steps post }
        ensures back { AreAway (Some job.post) None (away_from 0 self.old.tokens.items) (away_from 0 self.new.tokens.items) }
    {
        self.answer(job.post);
        self.take_back(job);
    }
}

impl Logs for Logbook {
    fn log(&mut self, brought: Option<Job>) -> Entry {
        match brought {
            Some(job) => {
                self.bring(job);
                Entry::Done
            }
            None => self.put_out(),
        }
    }
}
