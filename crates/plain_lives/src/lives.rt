//! The lives that a step, and a list of steps, leave.

ghost use Rattle.std.specs.Prelude.{◌≡◌, ◌++◌, ◌∷◌, [], IfOk};
ghost use Rattle.pipe_types.specs.declared.numbers.StageNo.{StageNo as Stage};
ghost use Rattle.pipe_model.specs.{History.{History, history}, Lives.{reason_in, is_alive, renews, one_more, restarts as restarts_in}};
ghost use Rattle.plain_lives.specs.Lives.{generation_by, kept, LivesStand};

use crate::deaths::{Death, Lives, Renewal, live_stages};
use crate::kills::killed_by;
use pipe_types::numbers::StageNo;
use pipe_types::step::Step;
use pipe_types::topology::Topology;
use std::alloc::{AllocError, Global};

fn restarts(step: &Step, stage: StageNo) -> bool
    ensures { result ≡ restarts_in step.now stage }
{
    match step {
        Step::Restart { stage: restarted } => stage.0 == restarted.0,
        _ => false,
    }
}

/// The new deaths, and behind them the old ones but that of a stage that the step restarts.
fn deaths_after(killed: Vec<Death>, step: &Step, old: &[Death]) -> Result<Vec<Death>, AllocError>
    ensures { IfOk result (λ deaths. deaths.items ≡ killed.items ++ kept step.now old.now) }
{
    let mut deaths = killed;
    for death in old {
        if !restarts(step, death.stage()) {
            deaths.push(*death)?;
        }
    }
    Ok(deaths)
}

/// The renewals, with one more where the step is a restart.
fn renewals_after(
    alloc: Global,
    topology: &Topology,
    deaths: &[Death],
    step: &Step,
    renewals: Vec<Renewal>,
) -> Result<Vec<Renewal>, AllocError>
    ensures { IfOk result (λ more. (c p : Stage) →
        generation_by more.items c p ≡ one_more (renews (λ t. is_alive topology.now (reason_in deaths.now t) t) step.now c p) (generation_by renewals.items c p)) }
{
    match step {
        Step::Restart { stage } => {
            let live = live_stages(alloc, topology, deaths)?;
            let renewal = Renewal {
                restarted: *stage,
                live,
            };
            with_renewal(renewals, renewal)
        }
        _ => Ok(renewals),
    }
}

fn with_renewal(renewals: Vec<Renewal>, renewal: Renewal) -> Result<Vec<Renewal>, AllocError>
    ensures { IfOk result (λ more. more.items ≡ renewals.items ++ renewal ∷ []) }
{
    let mut more = renewals;
    more.push(renewal)?;
    Ok(more)
}

/// The lives after one more step.
pub fn lives_after(
    alloc: Global,
    topology: &Topology,
    lives: Lives,
    step: &Step,
) -> Result<Lives, AllocError>
    ensures { IfOk result (λ after. (before : History) → LivesStand topology.now before lives → LivesStand topology.now (step.now ∷ before) after) }
{
    let killed = killed_by(alloc, topology, &lives, step)?;
    let Lives {
        deaths: old,
        renewals,
    } = lives;
    let deaths = deaths_after(killed, step, old.as_slice())?;
    let renewals = renewals_after(alloc, topology, old.as_slice(), step, renewals)?;
    Ok(Lives { deaths, renewals })
}

/// The lives after these steps.
pub fn lives_of(alloc: Global, topology: &Topology, steps: &[Step]) -> Result<Lives, AllocError>
    ensures { IfOk result (λ lives. LivesStand topology.now (history steps.now) lives) }
{
    let mut lives = Lives {
        deaths: Vec::new(alloc),
        renewals: Vec::new(alloc),
    };
    for step in steps {
        lives = lives_after(alloc, topology, lives, step)?;
    }
    Ok(lives)
}
