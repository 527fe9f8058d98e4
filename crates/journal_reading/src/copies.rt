//! A copy of a topology.

ghost use Rattle.std.specs.Prelude.{◌≡◌, IfOk};

use pipe_types::bytes::Text;
use pipe_types::topology::{LimitList, StageList, StageSpec, Topology};
use stage_callback::copy_spec;
use std::alloc::{AllocError, Global};

fn copy_stages(alloc: Global, stages: &[StageSpec]) -> Result<StageList, AllocError>
    ensures { IfOk result (λ copied. copied ≡ stages.now) }
{
    let mut copied = Vec::with_capacity(alloc, stages.len())?;
    for spec in stages {
        copied.push(copy_spec(alloc, spec)?)?;
    }
    Ok(StageList::from_vec(copied))
}

fn copy_limits(alloc: Global, limits: &LimitList) -> Result<LimitList, AllocError>
    ensures { IfOk result (λ copied. copied ≡ limits.now) }
{
    Ok(LimitList::from_vec(Vec::from_slice(alloc, limits.as_slice())?))
}

fn copy_control(alloc: Global, control: &Option<Text>) -> Result<Option<Text>, AllocError>
    ensures { IfOk result (λ copied. copied ≡ control.now) }
{
    match control {
        Some(name) => Ok(Some(Text::from_string(String::from_str(alloc, name.as_str())?))),
        None => Ok(None),
    }
}

/// A copy of the topology.
pub fn copy_topology(alloc: Global, topology: &Topology) -> Result<Topology, AllocError>
    ensures { IfOk result (λ copied. copied ≡ topology.now) }
{
    Ok(Topology {
        stages: copy_stages(alloc, topology.stages.as_slice())?,
        limits: copy_limits(alloc, &topology.limits)?,
        idle_limit: topology.idle_limit,
        record_limit: topology.record_limit,
        byte_limit: topology.byte_limit,
        control: copy_control(alloc, &topology.control)?,
        rate: topology.rate,
    })
}
