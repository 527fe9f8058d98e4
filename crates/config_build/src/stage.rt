//! Single stages.

ghost use Rattle.std.specs.{Prelude.{◌≡◌, ◌+◌, ◌<◌, ◌^◌, length, codes, IfOk}, Option.{ForSome}};
ghost use Rattle.pipe_types.specs.Sound.{numbered_name};
ghost use Rattle.config_build.specs.Build as build;

use config_rule::form::parse;
use config_settings::settings::{
    BatcherSettings, ProcessorSettings, ProducerSettings, SupervisorSettings, TextList,
};
use config_table::fault::{at_place, copied};
use pipe_types::bytes::{Bytes, Text};
use pipe_types::numbers::StageNo;
use pipe_types::topology::{
    CancelMode, ChildMode, Dispatch, Keep, Kind, Role, Rule, RuleList, StageSpec,
};
use std::alloc::{AllocError, Global};

/// A stage with its number, its name and its place in its group, and no other field.
fn blank_stage(alloc: Global, no: u16, name: Text, role: Role, index: u16) -> StageSpec
    ensures { result ≡ build.blank_stage no name role index }
{
    StageSpec {
        no: StageNo(no),
        name,
        role,
        index,
        batcher: 0,
        dispatch: Dispatch::Demand,
        parts: 0,
        field: 0,
        size: None,
        keep: Keep::Last,
        push: false,
        mode: CancelMode::Temporary,
        min: 0,
        max: 0,
        kind: Kind::Steps,
        rules: RuleList::from_vec(Vec::new(alloc)),
        failed: None,
        edge: None,
        batch_size: 0,
        batch_timeout: 0,
        child: ChildMode::Temporary,
        batchers: 0,
        select: Bytes::from_vec(Vec::new(alloc)),
        limit: 0,
    }
}

/// The rules of texts, where these are the batchers' names.
fn rules_of(alloc: Global, known: &[Text], texts: &[Text]) -> Result<RuleList, AllocError>
    requires { length known.now < 2 ^ 16 }
    ensures { IfOk result (λ rules. rules ≡ build.rules_of known.now texts.now) }
{
    let mut rules = Vec::new(alloc);
    for text in texts {
        if let Some(form) = parse(text.as_str().as_bytes()) {
            rules.push(form.to_rule(alloc, known)?)?;
        }
    }
    Ok(RuleList::from_vec(rules))
}

/// A group's name, a dot and the place in the group.
#[tactic(auto, using(crate::proofs::Stages::member_place))]
fn member_name(alloc: Global, name: &str, index: u16) -> Result<Text, AllocError>
    ensures { IfOk result (λ text. text ≡ numbered_name name.now index) }
{
    at_place(alloc, name, index as usize)
}

/// How a producer sends: by demand, or by a field.
fn dispatch_by(field: Option<u32>) -> Dispatch
    ensures { result ≡ build.dispatch_by field }
{
    match field {
        None => Dispatch::Demand,
        Some(_) => Dispatch::Partition,
    }
}

fn parts_by(field: Option<u32>, count: u32) -> u32
    ensures { result ≡ build.parts_by field count }
{
    match field {
        None => 0,
        Some(_) => count,
    }
}

fn field_by(field: Option<u32>) -> u16
    requires { ForSome field (λ n. n < 2 ^ 16) }
    ensures { result ≡ build.field_by field }
{
    match field {
        None => 0,
        Some(field) => field as u16,
    }
}

/// The producer at a place of the file.
pub fn producer_stage(
    alloc: Global,
    field: Option<u32>,
    parts: u32,
    limit: u16,
    index: u16,
    producer: &ProducerSettings,
) -> Result<StageSpec, AllocError>
    requires few { index + 1 < 2 ^ 16 }
    requires field { ForSome field (λ n. n < 2 ^ 16) }
    ensures { IfOk result (λ stage. stage ≡ build.producer_stage field parts limit index producer.now) }
{
    let name = copied(alloc, producer.name.as_str())?;
    let source = copied(alloc, producer.source.as_str())?;
    let mut stage = blank_stage(alloc, index + 1, name, Role::Producer, index);
    stage.dispatch = dispatch_by(field);
    stage.parts = parts_by(field, parts);
    stage.field = field_by(field);
    stage.size = Some(producer.buffer_size);
    stage.keep = producer.keep;
    stage.push = producer.push;
    stage.edge = Some(source);
    stage.limit = limit;
    Ok(stage)
}

/// How a processor sends: to the batcher that a message names, where there are batchers.
fn dispatch_to(count: u16) -> Dispatch
    ensures { result ≡ build.dispatch_to count }
{
    match count {
        0 => Dispatch::Demand,
        _ => Dispatch::Partition,
    }
}

/// The processor at a place of its group, behind as many stages.
pub fn processor_stage(
    alloc: Global,
    known: &[Text],
    processors: &ProcessorSettings,
    before: u16,
    limit: u16,
    index: u16,
) -> Result<StageSpec, AllocError>
    requires few { before + index + 1 < 2 ^ 16 }
    requires known { length known.now < 2 ^ 16 }
    ensures { IfOk result (λ stage. stage ≡ build.processor_stage known.now processors.now before limit index) }
{
    let name = member_name(alloc, "processors", index)?;
    let rules = rules_of(alloc, known, processors.handler.steps.as_slice())?;
    let mut stage = blank_stage(alloc, before + index + 1, name, Role::Processor, index);
    stage.mode = processors.demand.mode;
    stage.min = processors.demand.min;
    stage.max = processors.demand.max;
    stage.kind = processors.handler.kind;
    stage.rules = rules;
    stage.failed = processors.handler.failed;
    let count = known.len() as u16;
    stage.dispatch = dispatch_to(count);
    stage.parts = u32::from(count);
    stage.batchers = count;
    stage.limit = limit;
    Ok(stage)
}

/// The supervisor, behind as many stages.
pub fn supervisor_stage(
    alloc: Global,
    before: u16,
    limit: u16,
    supervisor: &SupervisorSettings,
) -> Result<StageSpec, AllocError>
    requires { before + 1 < 2 ^ 16 }
    ensures { IfOk result (λ stage. stage ≡ build.supervisor_stage before limit supervisor.now) }
{
    let name = copied(alloc, "supervisor")?;
    let rules = rules_of(alloc, &[], supervisor.handler.steps.as_slice())?;
    let mut stage = blank_stage(alloc, before + 1, name, Role::Supervisor, 0);
    stage.mode = supervisor.demand.mode;
    stage.min = supervisor.demand.min;
    stage.max = supervisor.demand.max;
    stage.kind = supervisor.handler.kind;
    stage.rules = rules;
    stage.failed = supervisor.handler.failed;
    stage.child = supervisor.restart;
    stage.limit = limit;
    Ok(stage)
}

/// With the partition dispatcher there is a part for each batch processor.
fn parts_of(dispatch: Dispatch, count: u32) -> u32
    ensures { result ≡ build.parts_of dispatch count }
{
    match dispatch {
        Dispatch::Partition => count,
        Dispatch::Demand | Dispatch::Broadcast => 0,
    }
}

/// The batcher at a place of the file, behind as many stages.
pub fn batcher_stage(
    alloc: Global,
    before: u16,
    limit: u16,
    index: u16,
    batcher: &BatcherSettings,
) -> Result<StageSpec, AllocError>
    requires { before + index + 1 < 2 ^ 16 }
    ensures { IfOk result (λ stage. stage ≡ build.batcher_stage before limit index batcher.now) }
{
    let name = copied(alloc, batcher.name.as_str())?;
    let dispatch = batcher.dispatch.unwrap_or(Dispatch::Demand);
    let mut stage = blank_stage(alloc, before + index + 1, name, Role::Batcher, index);
    stage.batcher = index;
    stage.dispatch = dispatch;
    stage.parts = parts_of(dispatch, batcher.concurrency);
    stage.mode = batcher.demand.mode;
    stage.min = batcher.demand.min;
    stage.max = batcher.demand.max;
    stage.batch_size = batcher.batch_size;
    stage.batch_timeout = u64::from(batcher.batch_timeout);
    stage.limit = limit;
    Ok(stage)
}

/// The sink at a place, where the batcher has sinks.
fn sink_at(alloc: Global, sinks: &Option<TextList>, index: u16) -> Result<Option<Text>, AllocError>
    ensures { IfOk result (λ sink. sink ≡ build.sink_at sinks.now index) }
{
    match sinks {
        None => Ok(None),
        Some(sinks) => match sinks.as_slice().get(index as usize) {
            Some(sink) => Ok(Some(copied(alloc, sink.as_str())?)),
            None => Ok(None),
        },
    }
}

/// The bytes of a text.
fn bytes_of(alloc: Global, text: &str) -> Result<Bytes, AllocError>
    ensures { IfOk result (λ bytes. bytes ≡ text.now) }
{
    Ok(Bytes::from_vec(Vec::from_slice(alloc, text.as_bytes())?))
}

/// What the batches of the batch processor at a place begin with: nothing where the batcher has no selectors.
fn select_at(alloc: Global, select: &Option<TextList>, index: u16) -> Result<Bytes, AllocError>
    ensures { IfOk result (λ text. text ≡ build.select_at select.now index) }
{
    match select {
        None => Ok(Bytes::from_vec(Vec::new(alloc))),
        Some(texts) => match texts.as_slice().get(index as usize) {
            Some(text) => Ok(bytes_of(alloc, text.as_str())?),
            None => Ok(Bytes::from_vec(Vec::new(alloc))),
        },
    }
}

/// The batch processor at a place of its batcher's group, behind as many stages.
pub fn batch_processor_stage(
    alloc: Global,
    number: u16,
    batcher: &BatcherSettings,
    before: u16,
    limit: u16,
    index: u16,
) -> Result<StageSpec, AllocError>
    requires { before + index + 1 < 2 ^ 16 }
    ensures { IfOk result (λ stage. stage ≡ build.batch_processor_stage number batcher.now before limit index) }
{
    let name = member_name(alloc, batcher.name.as_str(), index)?;
    let rules = rules_of(alloc, &[], batcher.handler.steps.as_slice())?;
    let edge = sink_at(alloc, &batcher.sinks, index)?;
    let select = select_at(alloc, &batcher.select, index)?;
    let mut stage = blank_stage(alloc, before + index + 1, name, Role::BatchProcessor, index);
    stage.batcher = number;
    stage.mode = batcher.demand.mode;
    stage.max = 1;
    stage.kind = batcher.handler.kind;
    stage.rules = rules;
    stage.failed = batcher.handler.failed;
    stage.edge = edge;
    stage.select = select;
    stage.limit = limit;
    Ok(stage)
}
