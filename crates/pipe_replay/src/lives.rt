//! The rows of stages.

ghost use Rattle.std.specs.Prelude.{◌≡◌, IfOk, map};
ghost use Rattle.pipe_model.specs.History.{history};
ghost use Rattle.plain_lives.specs.Lives.{LivesStand};
ghost use Rattle.pipe_replay.specs.Rows.{life_of as life_of_in};

use pipe_types::state::Life;
use pipe_types::topology::StageSpec;
use plain_counts::{incarnation, unit_no};
use plain_lives::Past;
use std::alloc::{AllocError, Global};

fn life_of(past: &Past<'_>, spec: &StageSpec) -> Result<Life, AllocError>
    requires { LivesStand past.now.topology.now (history past.now.steps.now) past.now.lives.now }
    ensures { IfOk result (λ life. life ≡ life_of_in past.now.topology.now (history past.now.steps.now) spec.now) }
{
    Ok(Life {
        stage: spec.no,
        incarnation: unit_no(incarnation(past.steps, spec.no)?)?,
        live: past.is_live(spec.no),
    })
}

/// The incarnation of each stage, and whether it is live.
pub(crate) fn life_rows(alloc: Global, past: &Past<'_>) -> Result<Vec<Life>, AllocError>
    requires { LivesStand past.now.topology.now (history past.now.steps.now) past.now.lives.now }
    ensures { IfOk result (λ rows. rows.items ≡ map (life_of_in past.now.topology.now (history past.now.steps.now)) past.now.topology.now.stages) }
{
    let specs = past.topology.stages.as_slice();
    let mut rows = Vec::new(alloc);
    for spec in specs {
        rows.push(life_of(past, spec)?)?;
    }
    Ok(rows)
}
