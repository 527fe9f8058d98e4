//! Reading the values of a topology file.

ghost use Rattle.std.specs.Prelude.{◌≡◌, [], option_map, option_copied, option_and_then, unwrap_or, IfOk};
ghost use Rattle.toml.specs.View.{view, items_view, array_view, table_view};
ghost use Rattle.config_table.specs.Format as format;
ghost use Rattle.config_settings.specs.Settings as spec;

use crate::settings::{
    BatcherList, BatcherSettings, Demand, Handler, OwnLimit, ProcessorSettings, ProducerList,
    ProducerSettings, Settings, SupervisorSettings, TextList,
};
use config_table::fault::copied;
use config_table::format::{Key, Range, Shape, given, number, value_at};
use pipe_types::bytes::Text;
use pipe_types::reason::Reason;
use pipe_types::topology::{CancelMode, ChildMode, Dispatch, Keep, Kind, Rate};
use std::alloc::{AllocError, Global};
use toml::{Table, Value};

fn text_at(table: &Table, key: Key) -> Option<&str>
    ensures { option_copied result ≡ spec.text_at key (table_view table.now) }
{
    match value_at(table, key) {
        Some(value) => value.as_str(),
        None => None,
    }
}

/// A copy of the text at the key, if one is given.
fn copy_at(alloc: Global, table: &Table, key: Key) -> Result<Option<Text>, AllocError>
    ensures { IfOk result (λ text. text ≡ spec.text_at key (table_view table.now)) }
{
    Ok(match text_at(table, key) {
        Some(text) => Some(copied(alloc, text)?),
        None => None,
    })
}

/// A copy of a required text.
fn text(alloc: Global, table: &Table, key: Key) -> Result<Text, AllocError>
    ensures { IfOk result (λ text. text ≡ spec.text key (table_view table.now)) }
{
    match text_at(table, key) {
        Some(text) => copied(alloc, text),
        None => Ok(Text::from_string(String::new(alloc))),
    }
}

/// The place of the word at the key among its words, or 0.
fn word(table: &Table, shape: Shape, key: Key) -> usize
    ensures { result ≡ spec.word shape key (table_view table.now) }
{
    match text_at(table, key) {
        Some(text) => match shape.word_place(text) {
            Some(place) => place,
            None => 0,
        },
        None => 0,
    }
}

fn cancel_mode(place: usize) -> CancelMode
    ensures { result ≡ spec.cancel_mode place }
{
    match place {
        0 => CancelMode::Temporary,
        1 => CancelMode::Transient,
        _ => CancelMode::Permanent,
    }
}

fn child_mode(place: usize) -> ChildMode
    ensures { result ≡ spec.child_mode place }
{
    match place {
        0 => ChildMode::Temporary,
        _ => ChildMode::Transient,
    }
}

fn keep_end(place: usize) -> Keep
    ensures { result ≡ spec.keep_end place }
{
    match place {
        0 => Keep::Last,
        _ => Keep::First,
    }
}

fn kind_of(place: usize) -> Kind
    ensures { result ≡ spec.kind_of place }
{
    match place {
        0 => Kind::Steps,
        _ => Kind::Own,
    }
}

fn batch_kind(place: usize) -> Kind
    ensures { result ≡ spec.batch_kind place }
{
    match place {
        0 => Kind::Lines,
        1 => Kind::Steps,
        _ => Kind::Own,
    }
}

fn dispatch_of(word: &str) -> Option<Dispatch>
    ensures { result ≡ spec.dispatch_of word.now }
{
    if word == "demand" {
        Some(Dispatch::Demand)
    } else if word == "broadcast" {
        Some(Dispatch::Broadcast)
    } else if word == "partition" {
        Some(Dispatch::Partition)
    } else {
        None
    }
}

fn given_dispatch(table: &Table) -> Option<Dispatch>
    ensures { result ≡ spec.given_dispatch (spec.text_at Key.Dispatch (table_view table.now)) }
{
    match text_at(table, Key::Dispatch) {
        Some(word) => dispatch_of(word),
        None => Some(Dispatch::Demand),
    }
}

fn reason_of(text: &str) -> Option<Reason>
    ensures { result ≡ spec.reason_of text.now }
{
    Reason::new(text.as_bytes())
}

fn failed_reason(table: &Table) -> Option<Reason>
    ensures { result ≡ option_and_then spec.reason_of (spec.text_at Key.Failed (table_view table.now)) }
{
    match text_at(table, Key::Failed) {
        Some(text) => reason_of(text),
        None => None,
    }
}

/// The texts among the items of an array.
fn texts_in(alloc: Global, items: &[Value]) -> Result<Vec<Text>, AllocError>
    ensures { IfOk result (λ texts. texts.items ≡ spec.texts_in (items_view items.now)) }
{
    let mut texts = Vec::new(alloc);
    for item in items {
        if let Some(text) = item.as_str() {
            texts.push(copied(alloc, text)?)?;
        }
    }
    Ok(texts)
}

fn array_at(table: &Table, key: Key) -> Option<&Vec<Value>>
    ensures { option_map (λ items. array_view items.now) result ≡ spec.array_at key (table_view table.now) }
{
    match value_at(table, key) {
        Some(value) => value.as_array(),
        None => None,
    }
}

fn table_at(table: &Table, key: Key) -> Option<&Table>
    ensures { option_map (λ found. table_view found.now) result ≡ spec.table_at key (table_view table.now) }
{
    match value_at(table, key) {
        Some(value) => value.as_table(),
        None => None,
    }
}

fn texts_at(alloc: Global, table: &Table, key: Key) -> Result<Option<TextList>, AllocError>
    ensures { IfOk result (λ texts. texts ≡ spec.texts_at key (table_view table.now)) }
{
    Ok(match array_at(table, key) {
        Some(items) => Some(TextList::from_vec(texts_in(alloc, items.as_slice())?)),
        None => None,
    })
}

fn rule_texts(alloc: Global, table: &Table) -> Result<TextList, AllocError>
    ensures { IfOk result (λ texts. texts ≡ unwrap_or (spec.texts_at Key.Steps (table_view table.now)) []) }
{
    match texts_at(alloc, table, Key::Steps)? {
        Some(texts) => Ok(texts),
        None => Ok(TextList::from_vec(Vec::new(alloc))),
    }
}

fn demand_of(table: &Table, max_range: Range) -> Demand
    ensures { result ≡ spec.demand_of max_range (table_view table.now) }
{
    let mode = cancel_mode(word(table, Shape::Cancel, Key::Cancel));
    let max = number(table, Key::MaxDemand, max_range);
    let min = number(table, Key::MinDemand, Range::min_demand(max));
    Demand { mode, min, max }
}

/// The limit that the table gives its stages. In a file of version 1 the walk refuses both keys.
fn own_limit(table: &Table) -> OwnLimit
    ensures { result ≡ spec.own_limit (table_view table.now) }
{
    OwnLimit {
        max_restarts: given(table, Key::MaxRestarts, Range::MAX_RESTARTS),
        max_seconds: given(table, Key::MaxSeconds, Range::MAX_SECONDS),
    }
}

fn handler_of(alloc: Global, kind: Kind, table: &Table) -> Result<Handler, AllocError>
    ensures { IfOk result (λ handler. handler ≡ spec.handler_of kind (table_view table.now)) }
{
    let steps = rule_texts(alloc, table)?;
    let failed = failed_reason(table);
    Ok(Handler {
        kind,
        steps,
        failed,
    })
}

fn producer_of(alloc: Global, table: &Table) -> Result<ProducerSettings, AllocError>
    ensures { IfOk result (λ producer. producer ≡ spec.producer_of (table_view table.now)) }
{
    let name = text(alloc, table, Key::Name)?;
    let source = text(alloc, table, Key::Source)?;
    let push = word(table, Shape::Mode, Key::Mode) != 0;
    let buffer_size = number(table, Key::BufferSize, Range::BUFFER_SIZE);
    let keep = keep_end(word(table, Shape::Keep, Key::BufferKeep));
    Ok(ProducerSettings {
        name,
        source,
        push,
        buffer_size,
        keep,
        limit: own_limit(table),
    })
}

fn processors_of(alloc: Global, table: &Table) -> Result<ProcessorSettings, AllocError>
    ensures { IfOk result (λ processors. processors ≡ spec.processors_of (table_view table.now)) }
{
    let kind = kind_of(word(table, Shape::Kind, Key::Kind));
    let handler = handler_of(alloc, kind, table)?;
    let concurrency = number(table, Key::Concurrency, Range::PROCESSORS_CONCURRENCY);
    let partition_by = given(table, Key::PartitionBy, Range::PARTITION_BY);
    let demand = demand_of(table, Range::PROCESSORS_MAX);
    Ok(ProcessorSettings {
        concurrency,
        partition_by,
        demand,
        handler,
        limit: own_limit(table),
    })
}

fn supervisor_of(alloc: Global, table: &Table) -> Result<SupervisorSettings, AllocError>
    ensures { IfOk result (λ supervisor. supervisor ≡ spec.supervisor_of (table_view table.now)) }
{
    let kind = kind_of(word(table, Shape::Kind, Key::Kind));
    let handler = handler_of(alloc, kind, table)?;
    let restart = child_mode(word(table, Shape::Restart, Key::Restart));
    let demand = demand_of(table, Range::SUPERVISOR_MAX);
    Ok(SupervisorSettings {
        restart,
        demand,
        handler,
        limit: own_limit(table),
    })
}

fn batcher_of(alloc: Global, table: &Table) -> Result<BatcherSettings, AllocError>
    ensures { IfOk result (λ batcher. batcher ≡ spec.batcher_of (table_view table.now)) }
{
    let name = text(alloc, table, Key::Name)?;
    let kind = batch_kind(word(table, Shape::BatchKind, Key::Kind));
    let handler = handler_of(alloc, kind, table)?;
    let select = texts_at(alloc, table, Key::Select)?;
    let sinks = texts_at(alloc, table, Key::Sinks)?;
    let concurrency = number(table, Key::Concurrency, Range::BATCHER_CONCURRENCY);
    let batch_size = number(table, Key::BatchSize, Range::BATCH_SIZE);
    let batch_timeout = number(table, Key::BatchTimeout, Range::BATCH_TIMEOUT);
    let demand = demand_of(table, Range::batcher_max(table));
    let dispatch = given_dispatch(table);
    Ok(BatcherSettings {
        name,
        concurrency,
        batch_size,
        batch_timeout,
        demand,
        dispatch,
        handler,
        select,
        sinks,
        limit: own_limit(table),
    })
}

fn producers_in(alloc: Global, items: &[Value]) -> Result<Vec<ProducerSettings>, AllocError>
    ensures { IfOk result (λ producers. producers.items ≡ spec.producers_in (items_view items.now)) }
{
    let mut producers = Vec::new(alloc);
    for item in items {
        if let Some(table) = item.as_table() {
            producers.push(producer_of(alloc, table)?)?;
        }
    }
    Ok(producers)
}

fn batchers_in(alloc: Global, items: &[Value]) -> Result<Vec<BatcherSettings>, AllocError>
    ensures { IfOk result (λ batchers. batchers.items ≡ spec.batchers_in (items_view items.now)) }
{
    let mut batchers = Vec::new(alloc);
    for item in items {
        if let Some(table) = item.as_table() {
            batchers.push(batcher_of(alloc, table)?)?;
        }
    }
    Ok(batchers)
}

fn producers_at(alloc: Global, table: &Table) -> Result<ProducerList, AllocError>
    ensures { IfOk result (λ producers. producers ≡ spec.producers_at (spec.array_at Key.Producer (table_view table.now))) }
{
    match array_at(table, Key::Producer) {
        Some(items) => Ok(ProducerList::from_vec(producers_in(alloc, items.as_slice())?)),
        None => Ok(ProducerList::from_vec(Vec::new(alloc))),
    }
}

fn batchers_at(alloc: Global, table: &Table) -> Result<BatcherList, AllocError>
    ensures { IfOk result (λ batchers. batchers ≡ spec.batchers_at (spec.array_at Key.Batcher (table_view table.now))) }
{
    match array_at(table, Key::Batcher) {
        Some(items) => Ok(BatcherList::from_vec(batchers_in(alloc, items.as_slice())?)),
        None => Ok(BatcherList::from_vec(Vec::new(alloc))),
    }
}

fn processors_at(alloc: Global, table: &Table) -> Result<Option<ProcessorSettings>, AllocError>
    ensures { IfOk result (λ found. found ≡ option_map spec.processors_of (spec.table_at Key.Processors (table_view table.now))) }
{
    Ok(match table_at(table, Key::Processors) {
        Some(table) => Some(processors_of(alloc, table)?),
        None => None,
    })
}

fn supervisor_at(alloc: Global, table: &Table) -> Result<Option<SupervisorSettings>, AllocError>
    ensures { IfOk result (λ found. found ≡ option_map spec.supervisor_of (spec.table_at Key.Supervisor (table_view table.now))) }
{
    Ok(match table_at(table, Key::Supervisor) {
        Some(table) => Some(supervisor_of(alloc, table)?),
        None => None,
    })
}

fn pipeline_number(table: &Table, key: Key, range: Range) -> u32
    ensures { result ≡ spec.pipeline_number range key (spec.table_at Key.Pipeline (table_view table.now)) }
{
    match table_at(table, Key::Pipeline) {
        Some(pipeline) => number(pipeline, key, range),
        None => range.default,
    }
}

fn control(alloc: Global, table: &Table) -> Result<Option<Text>, AllocError>
    ensures { IfOk result (λ control. control ≡ option_and_then (spec.text_at Key.Control) (spec.table_at Key.Pipeline (table_view table.now))) }
{
    match table_at(table, Key::Pipeline) {
        Some(pipeline) => copy_at(alloc, pipeline, Key::Control),
        None => Ok(None),
    }
}

/// What is let in, where both the number of messages and the interval are given.
fn rate_of(allowed: Option<u32>, interval: Option<u32>) -> Option<Rate>
    ensures { result ≡ spec.rate_of allowed interval }
{
    match (allowed, interval) {
        (Some(allowed), Some(interval)) => Some(Rate {
            allowed,
            interval: u64::from(interval),
        }),
        _ => None,
    }
}

/// What so many producers let in.
fn rate(table: &Table, producers: usize) -> Option<Rate>
    ensures { result ≡ spec.rate_in producers (spec.table_at Key.Pipeline (table_view table.now)) }
{
    match table_at(table, Key::Pipeline) {
        Some(pipeline) => rate_of(
            given(
                pipeline,
                Key::AllowedMessages,
                Range::allowed_messages(producers),
            ),
            given(pipeline, Key::Interval, Range::INTERVAL),
        ),
        None => None,
    }
}

/// The values of the file with the defaults.
pub fn read_settings(alloc: Global, table: &Table) -> Result<Settings, AllocError>
    ensures { IfOk result (λ settings. settings ≡ spec.settings_of (table_view table.now)) }
{
    let control = control(alloc, table)?;
    let producers = producers_at(alloc, table)?;
    let rate = rate(table, producers.as_slice().len());
    let processors = processors_at(alloc, table)?;
    let supervisor = supervisor_at(alloc, table)?;
    let batchers = batchers_at(alloc, table)?;
    Ok(Settings {
        max_restarts: pipeline_number(table, Key::MaxRestarts, Range::MAX_RESTARTS),
        max_seconds: pipeline_number(table, Key::MaxSeconds, Range::MAX_SECONDS),
        idle_limit: pipeline_number(table, Key::IdleLimit, Range::IDLE_LIMIT),
        record_limit: pipeline_number(table, Key::RecordLimit, Range::RECORD_LIMIT),
        byte_limit: pipeline_number(table, Key::ByteLimit, Range::BYTE_LIMIT),
        control,
        rate,
        producers,
        processors,
        supervisor,
        batchers,
    })
}
