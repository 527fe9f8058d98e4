//! Topologies in memory whose stages have limits on restarts of their own, which no topology file tells.

ghost use Rattle.std.specs.{Prelude.{◌≡◌, map, nat_lt, IfOk, IfSome}, List.{list_all}};
ghost use Rattle.pipe_types.specs.Sound.{IsSound, are_limits as are_limits_of, is_limit as is_limit_of};
ghost use Rattle.core_checks.specs.Limits.{bare};

use super::case::{item, number, small};
use pipe_types::topology::{LimitList, RestartLimit, StageList, StageSpec, Topology};
use std::alloc::AllocError;

/// The topology with the limits that the words tell, if it may have them: a word `MAX:SECONDS` is one more limit, numbered from
/// 1 on, and `STAGE=NUMBER` gives the stage that limit.
pub fn with_limits(topology: Topology, words: &str) -> Result<Option<Topology>, AllocError>
    requires sound { IsSound topology }
    ensures sound { IfOk result (λ found. IfSome found IsSound) }
{
    let mut stages = topology.stages.into_vec();
    let mut limits = topology.limits.into_vec();
    give_limits(&mut stages, words);
    add_limits(&mut limits, words)?;
    if !are_limits(&limits, &stages) {
        return Ok(None);
    }
    Ok(Some(Topology {
        stages: StageList::from_vec(stages),
        limits: LimitList::from_vec(limits),
        idle_limit: topology.idle_limit,
        record_limit: topology.record_limit,
        byte_limit: topology.byte_limit,
        control: topology.control,
        rate: topology.rate,
    }))
}

fn add_limits(limits: &mut Vec<RestartLimit>, words: &str) -> Result<(), AllocError> {
    for word in words.split_whitespace() {
        if word.contains(':') {
            limits.push(RestartLimit {
                max_restarts: u32::from(small(item(word, 0))),
                window_ms: number(item(word, 1)).saturating_mul(1_000),
            })?;
        }
    }
    Ok(())
}

fn give_limits(stages: &mut Vec<StageSpec>, words: &str)
    ensures { map bare stages.new.items ≡ map bare stages.old.items }
{
    for word in words.split_whitespace() {
        if let Some((stage, limit)) = word.split_once('=') {
            give_limit(stages, small(stage), small(limit));
        }
    }
}

fn give_limit(stages: &mut Vec<StageSpec>, stage: u16, limit: u16)
    ensures { map bare stages.new.items ≡ map bare stages.old.items }
{
    let at = usize::from(stage.saturating_sub(1));
    if at < stages.len() {
        stages[at].limit = limit;
    }
}

fn are_limits(limits: &[RestartLimit], stages: &[StageSpec]) -> bool
    ensures { result ≡ are_limits_of limits.now stages.now }
{
    let most = limits.len();
    most >= 1 && are_each(limits) && are_there(stages, most)
}

fn are_each(limits: &[RestartLimit]) -> bool
    ensures { result ≡ list_all is_limit_of limits.now }
{
    limits.iter().all(is_limit)
}

/// Whether the limit of each stage is one of so many.
fn are_there(stages: &[StageSpec], most: usize) -> bool
    ensures { result ≡ list_all (λ s. nat_lt s.limit most) stages.now }
{
    stages.iter().all(|s| usize::from(s.limit) < most)
}

fn is_limit(limit: &RestartLimit) -> bool
    ensures { result ≡ is_limit_of limit.now }
{
    let window = limit.window_ms;
    limit.max_restarts <= 1_000 && 1_000 <= window && window <= 3_600_000 && window % 1_000 == 0
}
