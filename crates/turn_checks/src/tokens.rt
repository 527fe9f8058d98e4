//! What a job takes along, and the table where it lies at home.
ghost use Rattle.std.specs.Prelude.{◌≡◌, ◌==◌, ℕ, ◌<◌, None, Some, [], length, if◌then◌else◌, IfOk};
ghost use Rattle.turn_checks.specs.Tokens.{token_at, away_from};

use pipe_types::numbers::{Post, StageNo};
use std::alloc::{AllocError, Global};

/// What a job of a stage takes along, as one of a pipeline takes a source or a callback.
#[derive(Drop)]
pub struct Token {
    /// How many jobs were done with it.
    pub jobs: u64,
}

/// The job of a post, with the token of its stage.
#[derive(Drop)]
pub struct Job {
    pub post: Post,
    pub token: Token,
}

impl Job {
    /// Does the job.
    pub fn run(self) -> Job
        ensures { result.post ≡ self.post }
    {
        let Job { post, token } = self;
        let jobs = token.jobs.saturating_add(1);
        Job {
            post,
            token: Token { jobs },
        }
    }
}

/// A token for each of so many stages, from 0 on.
#[tactic(auto, using(crate::proofs::Homes::none_more))]
pub(crate) fn tokens(alloc: Global, stages: u16) -> Result<Vec<Option<Token>>, AllocError>
    ensures none_away { IfOk result (λ tokens. away_from 0 tokens.items ≡ []) }
{
    let mut tokens = Vec::with_capacity(alloc, usize::from(stages))?;
    for _ in 0..stages {
        tokens.push(Some(Token { jobs: 0 }))?;
    }
    Ok(tokens)
}

/// The first stage whose token is there.
pub(crate) fn first_at_home(tokens: &[Option<Token>]) -> Option<StageNo> {
    let mut stage = 0u16;
    for token in tokens {
        if token.is_some() {
            return Some(StageNo(stage));
        }
        stage = stage.saturating_add(1);
    }
    None
}

/// Takes the token of a stage out, if it is there.
pub(crate) fn take_token(tokens: &mut Vec<Option<Token>>, stage: StageNo) -> Option<Token>
    ensures len { length tokens.new.items ≡ length tokens.old.items }
    ensures out { result ≡ token_at tokens.old.items stage.0 }
    ensures others { (s : ℕ) → token_at tokens.new.items s ≡ (if stage.0 == s then None else token_at tokens.old.items s) }
{
    match tokens.get_mut(usize::from(stage.0)) {
        Some(place) => place.take(),
        None => None,
    }
}

/// Puts the token of a stage back.
pub(crate) fn put_token(tokens: &mut Vec<Option<Token>>, stage: StageNo, token: Token)
    requires within { stage.0 < length tokens.old.items }
    ensures len { length tokens.new.items ≡ length tokens.old.items }
    ensures others { (s : ℕ) → token_at tokens.new.items s ≡ (if stage.0 == s then Some token else token_at tokens.old.items s) }
{
    tokens[usize::from(stage.0)] = Some(token);
}
