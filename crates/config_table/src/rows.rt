//! The rows of the format's tables, in byte order of their keys.

ghost use Rattle.std.specs.Prelude.{◌≡◌, IfOk};
ghost use Rattle.toml.specs.View.{table_view};
ghost use Rattle.config_table.specs.Format as format;

use crate::format::{FileVersion, Form, Key, Range, Row, Section, Shape, number, value_at};
use std::alloc::{AllocError, Global};
use toml::Table;

const fn range(low: u32, high: u32, default: u32) -> Range
    ensures { result ≡ format.range low high default }
{
    Range { low, high, default }
}

impl Range {
    pub const MAX_RESTARTS: Range = Range {
        low: 0,
        high: 1000,
        default: 3,
    };

    pub const MAX_SECONDS: Range = Range {
        low: 1,
        high: 3600,
        default: 5,
    };

    pub const IDLE_LIMIT: Range = Range {
        low: 0,
        high: 1_000_000,
        default: 0,
    };

    pub const RECORD_LIMIT: Range = Range {
        low: 1,
        high: 2_000_000,
        default: 200_000,
    };

    pub const BYTE_LIMIT: Range = Range {
        low: 1,
        high: 536_870_912,
        default: 67_108_864,
    };

    /// A length of time in milliseconds, which has no default.
    pub const INTERVAL: Range = Range {
        low: 1,
        high: 3_600_000,
        default: 1,
    };

    pub const BUFFER_SIZE: Range = Range {
        low: 0,
        high: 200_000,
        default: 10_000,
    };

    pub const PROCESSORS_CONCURRENCY: Range = Range {
        low: 1,
        high: 32,
        default: 2,
    };

    pub const PROCESSORS_MAX: Range = Range {
        low: 1,
        high: 10_000,
        default: 10,
    };

    pub const PARTITION_BY: Range = Range {
        low: 0,
        high: 255,
        default: 0,
    };

    pub const SUPERVISOR_MAX: Range = Range {
        low: 1,
        high: 16,
        default: 10,
    };

    pub const BATCHER_CONCURRENCY: Range = Range {
        low: 1,
        high: 16,
        default: 1,
    };

    pub const BATCH_SIZE: Range = Range {
        low: 1,
        high: 10_000,
        default: 100,
    };

    pub const BATCH_TIMEOUT: Range = Range {
        low: 1,
        high: 3_600_000,
        default: 1000,
    };

    /// At least one for each of so many producers. It has no default.
    pub fn allowed_messages(producers: usize) -> Range
        ensures { result ≡ format.allowed_messages producers }
    {
        range(producers.max(1).min(1_000_001) as u32, 1_000_000, 1)
    }

    /// A batcher asks for a batch at a time.
    pub fn batcher_max(table: &Table) -> Range
        ensures { result ≡ format.batcher_max (table_view table.now) }
    {
        range(1, 10_000, number(table, Key::BatchSize, Range::BATCH_SIZE))
    }

    /// Below `max_demand`, and by default half of it.
    pub fn min_demand(max: u32) -> Range
        ensures { result ≡ format.min_demand max }
    {
        range(0, max.saturating_sub(1), max / 2)
    }
}

fn row(key: Key, form: Form) -> Row
    ensures { result ≡ format.row key form }
{
    Row {
        key,
        since: FileVersion::One,
        required: false,
        form,
    }
}

/// A key that a file of version 1 does not have.
fn later_row(key: Key, form: Form) -> Row
    ensures { result ≡ format.later_row key form }
{
    Row {
        key,
        since: FileVersion::Two,
        required: false,
        form,
    }
}

/// A key that a file of version 1 does not have, and that stands where another one does.
fn paired_row(key: Key, required: bool, form: Form) -> Row
    ensures { result ≡ format.paired_row key required form }
{
    Row {
        key,
        since: FileVersion::Two,
        required,
        form,
    }
}

fn required_row(key: Key, form: Form) -> Row
    ensures { result ≡ format.required_row key form }
{
    Row {
        key,
        since: FileVersion::One,
        required: true,
        form,
    }
}

fn pipeline_rows(
    alloc: Global,
    producers: usize,
    has_allowed: bool,
    has_interval: bool,
) -> Result<Vec<Row>, AllocError>
    ensures { IfOk result (λ rows. rows.items ≡ format.pipeline_rows producers has_allowed has_interval) }
{
    let rows = [
        paired_row(
            Key::AllowedMessages,
            has_interval,
            Form::Whole(Range::allowed_messages(producers)),
        ),
        later_row(Key::ByteLimit, Form::Whole(Range::BYTE_LIMIT)),
        row(Key::Control, Form::Text(Shape::Edge)),
        row(Key::IdleLimit, Form::Whole(Range::IDLE_LIMIT)),
        paired_row(Key::Interval, has_allowed, Form::Whole(Range::INTERVAL)),
        row(Key::MaxRestarts, Form::Whole(Range::MAX_RESTARTS)),
        row(Key::MaxSeconds, Form::Whole(Range::MAX_SECONDS)),
        later_row(Key::RecordLimit, Form::Whole(Range::RECORD_LIMIT)),
    ];
    Ok(Vec::from_array(alloc, rows)?)
}

fn producer_rows(alloc: Global) -> Result<Vec<Row>, AllocError>
    ensures { IfOk result (λ rows. rows.items ≡ format.producer_rows) }
{
    let rows = [
        row(Key::BufferKeep, Form::Text(Shape::Keep)),
        row(Key::BufferSize, Form::Whole(Range::BUFFER_SIZE)),
        later_row(Key::MaxRestarts, Form::Whole(Range::MAX_RESTARTS)),
        later_row(Key::MaxSeconds, Form::Whole(Range::MAX_SECONDS)),
        row(Key::Mode, Form::Text(Shape::Mode)),
        required_row(Key::Name, Form::Text(Shape::Name)),
        required_row(Key::Source, Form::Text(Shape::Source)),
    ];
    Ok(Vec::from_array(alloc, rows)?)
}

fn processors_rows(alloc: Global, max: u32) -> Result<Vec<Row>, AllocError>
    ensures { IfOk result (λ rows. rows.items ≡ format.processors_rows max) }
{
    let rows = [
        row(Key::Cancel, Form::Text(Shape::Cancel)),
        row(Key::Concurrency, Form::Whole(Range::PROCESSORS_CONCURRENCY)),
        row(Key::Failed, Form::Text(Shape::Reason)),
        row(Key::Kind, Form::Text(Shape::Kind)),
        row(Key::MaxDemand, Form::Whole(Range::PROCESSORS_MAX)),
        later_row(Key::MaxRestarts, Form::Whole(Range::MAX_RESTARTS)),
        later_row(Key::MaxSeconds, Form::Whole(Range::MAX_SECONDS)),
        row(Key::MinDemand, Form::Whole(Range::min_demand(max))),
        row(Key::PartitionBy, Form::Whole(Range::PARTITION_BY)),
        row(Key::Steps, Form::RuleTexts),
    ];
    Ok(Vec::from_array(alloc, rows)?)
}

fn supervisor_rows(alloc: Global, max: u32) -> Result<Vec<Row>, AllocError>
    ensures { IfOk result (λ rows. rows.items ≡ format.supervisor_rows max) }
{
    let rows = [
        row(Key::Cancel, Form::Text(Shape::Cancel)),
        row(Key::Failed, Form::Text(Shape::Reason)),
        row(Key::Kind, Form::Text(Shape::Kind)),
        row(Key::MaxDemand, Form::Whole(Range::SUPERVISOR_MAX)),
        later_row(Key::MaxRestarts, Form::Whole(Range::MAX_RESTARTS)),
        later_row(Key::MaxSeconds, Form::Whole(Range::MAX_SECONDS)),
        row(Key::MinDemand, Form::Whole(Range::min_demand(max))),
        row(Key::Restart, Form::Text(Shape::Restart)),
        row(Key::Steps, Form::RuleTexts),
    ];
    Ok(Vec::from_array(alloc, rows)?)
}

fn batcher_rows(
    alloc: Global,
    max_range: Range,
    max: u32,
    concurrency: u32,
    is_broadcast: bool,
) -> Result<Vec<Row>, AllocError>
    ensures { IfOk result (λ rows. rows.items ≡ format.batcher_rows max_range max concurrency is_broadcast) }
{
    let rows = [
        row(Key::BatchSize, Form::Whole(Range::BATCH_SIZE)),
        row(Key::BatchTimeout, Form::Whole(Range::BATCH_TIMEOUT)),
        row(Key::Cancel, Form::Text(Shape::Cancel)),
        row(Key::Concurrency, Form::Whole(Range::BATCHER_CONCURRENCY)),
        row(Key::Dispatch, Form::Text(Shape::Any)),
        row(Key::Failed, Form::Text(Shape::Reason)),
        row(Key::Kind, Form::Text(Shape::BatchKind)),
        row(Key::MaxDemand, Form::Whole(max_range)),
        later_row(Key::MaxRestarts, Form::Whole(Range::MAX_RESTARTS)),
        later_row(Key::MaxSeconds, Form::Whole(Range::MAX_SECONDS)),
        row(Key::MinDemand, Form::Whole(Range::min_demand(max))),
        required_row(Key::Name, Form::Text(Shape::Name)),
        row(Key::Select, Form::SelectTexts(concurrency, is_broadcast)),
        row(Key::Sinks, Form::SinkTexts(concurrency)),
        row(Key::Steps, Form::RuleTexts),
    ];
    Ok(Vec::from_array(alloc, rows)?)
}

/// Whether the dispatcher of the batcher's table is the one that broadcasts.
fn does_broadcast(table: &Table) -> bool
    ensures { result ≡ format.does_broadcast (table_view table.now) }
{
    match value_at(table, Key::Dispatch) {
        Some(value) => match value.as_str() {
            Some(word) => word == "broadcast",
            None => false,
        },
        None => false,
    }
}

/// The rows of a table of this section, with the keys of every version; some ranges, and which keys are required, depend on
/// the values of the table.
pub fn rows(alloc: Global, section: Section, table: &Table) -> Result<Vec<Row>, AllocError>
    ensures { IfOk result (λ rows. rows.items ≡ format.rows section (table_view table.now)) }
{
    match section {
        Section::Pipeline(producers) => {
            let has_allowed = value_at(table, Key::AllowedMessages).is_some();
            let has_interval = value_at(table, Key::Interval).is_some();
            pipeline_rows(alloc, producers, has_allowed, has_interval)
        }
        Section::Producer => producer_rows(alloc),
        Section::Processors => {
            let max = number(table, Key::MaxDemand, Range::PROCESSORS_MAX);
            processors_rows(alloc, max)
        }
        Section::Supervisor => {
            let max = number(table, Key::MaxDemand, Range::SUPERVISOR_MAX);
            supervisor_rows(alloc, max)
        }
        Section::Batcher => {
            let max_range = Range::batcher_max(table);
            let max = number(table, Key::MaxDemand, max_range);
            let concurrency = number(table, Key::Concurrency, Range::BATCHER_CONCURRENCY);
            batcher_rows(alloc, max_range, max, concurrency, does_broadcast(table))
        }
    }
}
