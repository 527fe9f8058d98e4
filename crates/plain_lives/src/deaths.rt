//! Who is dead, and what was renewed.

ghost use Rattle.std.specs.Prelude.{◌≡◌, ◌++◌, IfOk, is_none};
ghost use Rattle.pipe_model.specs.Lives.{Death as KilledStage, reason_in, exits as exits_in, one_more as one_more_in};
ghost use Rattle.plain_lives.specs.Lives.{is_among as is_among_in, renewed_by as renewed_by_in, generation_by, live_by, live_numbers};

use pipe_types::message::Why;
use pipe_types::numbers::StageNo;
use pipe_types::topology::{CancelMode, Topology};
use plain_counts::plus;
use std::alloc::{AllocError, Global};
use std::marker::Model;

/// A stage that is dead, and why.
#[derive(Clone, Copy)]
pub struct Death {
    stage: StageNo,
    why: Why,
}

impl Model for Death {
    ghost use Rattle.pipe_model.specs.Lives.{Death as KilledStage};

    ghost Value = { KilledStage };

    ghost view = { λ d. record { stage = d.stage; why = d.why } };

    ghost inverse = { λ v. record { stage = v.stage; why = v.why } };
}

impl Death {
    pub fn new(stage: StageNo, why: Why) -> Self
        ensures { result ≡ record { stage = stage; why = why } }
    {
        Death { stage, why }
    }

    pub fn stage(self) -> StageNo
        ensures { result ≡ self.stage }
    {
        self.stage
    }

    pub fn why(self) -> Why
        ensures { result ≡ self.why }
    {
        self.why
    }
}

/// A restart: the stage, and the stages that were live before it.
#[derive(Drop)]
pub struct Renewal {
    pub restarted: StageNo,
    pub live: Vec<StageNo>,
}

/// What the steps so far leave of lives: who is dead, and each restart.
#[derive(Drop)]
pub struct Lives {
    pub deaths: Vec<Death>,
    pub renewals: Vec<Renewal>,
}

/// Why the stage is dead, and none where it is not.
pub fn reason(deaths: &[Death], stage: StageNo) -> Option<Why>
    ensures { result ≡ reason_in deaths.now stage }
{
    for death in deaths {
        if death.stage().0 == stage.0 {
            return Some(death.why());
        }
    }
    None
}

/// Whether a consumer of this mode is killed with a stage that was killed so.
pub(crate) fn exits(mode: CancelMode, why: Why) -> bool
    ensures { result ≡ exits_in mode why }
{
    match (mode, why) {
        (CancelMode::Permanent, _) => true,
        (CancelMode::Transient, Why::Stop) => false,
        (CancelMode::Transient, _) => true,
        (CancelMode::Temporary, _) => false,
    }
}

/// Whether the stage is one of the topology and not dead.
pub fn is_live(topology: &Topology, lives: &Lives, stage: StageNo) -> bool
    ensures { result ≡ live_by topology.now lives.now stage }
{
    match topology.stages.find(stage) {
        Some(_) => reason(lives.deaths.as_slice(), stage).is_none(),
        None => false,
    }
}

fn is_among(stages: &[StageNo], stage: StageNo) -> bool
    ensures { result ≡ is_among_in stages.now stage }
{
    for one in stages {
        if one.0 == stage.0 {
            return true;
        }
    }
    false
}

/// Whether the restart was of one of the two, while the other was live.
fn renewed_by(renewal: &Renewal, consumer: StageNo, producer: StageNo) -> bool
    ensures { result ≡ renewed_by_in renewal.now consumer producer }
{
    (renewal.restarted.0 == consumer.0 && is_among(renewal.live.as_slice(), producer))
        || (renewal.restarted.0 == producer.0 && is_among(renewal.live.as_slice(), consumer))
}

fn one_more(more: bool, old: u64) -> Result<u64, AllocError>
    ensures { IfOk result (λ n. n ≡ one_more_in more old) }
{
    if more { plus(old, 1) } else { Ok(old) }
}

/// The generation of a pair: 1 and the restarts of one while the other was live.
pub fn generation(lives: &Lives, consumer: StageNo, producer: StageNo) -> Result<u64, AllocError>
    ensures { IfOk result (λ n. n ≡ generation_by lives.now.renewals.items consumer producer) }
{
    let renewals = lives.renewals.as_slice();
    let mut count = 1;
    for renewal in renewals {
        count = one_more(renewed_by(renewal, consumer, producer), count)?;
    }
    Ok(count)
}

/// The stages that are live, in number order.
pub(crate) fn live_stages(
    alloc: Global,
    topology: &Topology,
    deaths: &[Death],
) -> Result<Vec<StageNo>, AllocError>
    ensures { IfOk result (λ live. live.items ≡ live_numbers deaths.now topology.now.stages) }
{
    let specs = topology.stages.as_slice();
    let mut live = Vec::new(alloc);
    for spec in specs {
        if reason(deaths, spec.no).is_none() {
            live.push(spec.no)?;
        }
    }
    Ok(live)
}
