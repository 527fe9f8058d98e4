//! What a value that holds boxes can say of them, in its own ghost members, where workers hand it over.

ghost use Rattle.std.specs.Prelude.{◌≡◌, ◌≢◌, ◌≤◌, ℕ, All, IfSome, OnOk};
ghost use Rattle.pipe_types.specs.{Handlers.{counted as counted_by}, declared.topology.StageSpec.{StageSpec}};

use super::boxes::{Handler, message_of};
use super::own::ask;
use pipe_types::message::{Message, Reply};
use pipe_types::topology::Kind;
use stage_callback::{Callback, LinesBox, StepsBox, unarmed};
use std::alloc::AllocError;
use told_text::Told;

#[derive(Drop)]
struct Body {
    callback: Option<Handler>,
    runs: u64,
}

#[derive(Drop)]
struct Bodies {
    items: Vec<Body>,
}

/// A value that workers hand over.
trait Home {
    /// Its callbacks are armed with this spec and stand at this count.
    ghost stands: { StageSpec → ℕ → Self → Type 0 };

    /// Its callbacks have had at least so many calls, and so many answers other than success.
    ghost counted: { ℕ → ℕ → Self → Type 0 };

    fn posts(&self) -> usize;
}

impl Home for Bodies {
    ghost stands = { λ stage n bodies. All (λ body. IfSome body.callback (λ b.
        ((Callback-box b).spec b.value ≡ stage) × ((Callback-box b).count b.value ≡ n))) bodies.items.items };

    ghost counted = { λ calls bad bodies. All (λ body. IfSome body.callback (λ b.
        (calls ≤ (Callback-box b).calls b.value) × (bad ≤ (Callback-box b).bad b.value))) bodies.items.items };

    fn posts(&self) -> usize {
        self.items.len()
    }
}

/// What a worker does that knows its value by the trait alone.
fn hand_over<H: Home + Send>(home: H) -> (H, usize)
    ensures stands { (stage : StageSpec) (n : ℕ) → H.stands stage n home → H.stands stage n result.0 }
    ensures counted { (calls bad : ℕ) → H.counted calls bad home → H.counted calls bad result.0 }
{
    let posts = home.posts();
    (home, posts)
}

/// The same of the value itself, in a function's words for what its boxes hold.
fn hand_over_bodies(bodies: Bodies) -> (Bodies, usize)
    ensures stands { (stage : StageSpec) (n : ℕ)
        → All (λ body. IfSome body.callback (λ b. (spec b ≡ stage) × (count b ≡ n))) bodies.items.items
        → All (λ body. IfSome body.callback (λ b. (spec b ≡ stage) × (count b ≡ n))) result.0.items.items }
    ensures counted { (most_calls most_bad : ℕ)
        → All (λ body. IfSome body.callback (λ b. (most_calls ≤ calls b) × (most_bad ≤ bad b))) bodies.items.items
        → All (λ body. IfSome body.callback (λ b. (most_calls ≤ calls b) × (most_bad ≤ bad b))) result.0.items.items }
{
    hand_over(bodies)
}

/// Runs one message on the box of a body.
fn run(body: &mut Body, message: Message) -> Result<Option<Reply>, AllocError>
    ensures same { IfSome body.old.callback (λ before. IfSome body.new.callback (λ after.
        (kind after ≡ kind before) × (spec after ≡ spec before))) }
    ensures count { OnOk result (IfSome body.old.callback (λ before. kind before ≢ Kind.Own
        → IfSome body.new.callback (λ after. count after ≡ counted_by (count before) 1))) }
{
    body.runs = body.runs.saturating_add(1);
    match &mut body.callback {
        Some(callback) => Ok(Some(ask(callback, message)?)),
        None => Ok(None),
    }
}

/// Runs a message on the body, and tells whether it has a box, whether there is a reply, and how often it ran.
fn tell_run(told: &mut Told, body: &mut Body) -> Result<(), AllocError> {
    let message = message_of(told.alloc, 7, "a")?;
    told.flag(body.callback.is_some());
    told.flag(run(body, message)?.is_some());
    told.count(body.runs);
    Ok(())
}

fn add(items: &mut Vec<Body>, callback: Option<Handler>) -> Result<(), AllocError> {
    items.push(Body { callback, runs: 0 })?;
    Ok(())
}

/// `handed`: how many bodies are handed over, and a run of each: one with an armed box, one with none, and one with a box
/// that was never armed.
pub fn over(told: &mut Told) -> Result<(), AllocError> {
    let mut steps: Handler = Box::new(told.alloc, StepsBox::new(told.alloc))?;
    steps.arm(&unarmed(told.alloc, Kind::Steps))?;
    let mut items = Vec::new(told.alloc);
    add(&mut items, Some(steps))?;
    add(&mut items, None)?;
    let lines: Handler = Box::new(told.alloc, LinesBox::new(told.alloc))?;
    add(&mut items, Some(lines))?;
    tell_all(told, Bodies { items })
}

fn tell_all(told: &mut Told, bodies: Bodies) -> Result<(), AllocError> {
    let (mut bodies, posts) = hand_over_bodies(bodies);
    told.count(posts as u64);
    for body in bodies.items.iter_mut() {
        tell_run(told, body)?;
    }
    Ok(())
}
