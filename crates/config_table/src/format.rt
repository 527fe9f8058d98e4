//! The tables of a topology file.

ghost use Rattle.std.specs.Prelude.{◌≡◌, Some, option_map};
ghost use Rattle.toml.specs.View.{table_view, view};
ghost use Rattle.config_table.specs.Format as format;

use toml::{Table, Value};

/// The versions of a topology file.
#[derive(Clone, Copy, PartialEq, Eq)]
pub enum FileVersion {
    One,
    Two,
}

/// The keys of a topology file.
#[derive(Clone, Copy, PartialEq, Eq)]
pub enum Key {
    Version,
    Pipeline,
    Producer,
    Processors,
    Supervisor,
    Batcher,
    MaxRestarts,
    MaxSeconds,
    IdleLimit,
    RecordLimit,
    ByteLimit,
    Control,
    AllowedMessages,
    Interval,
    Name,
    Source,
    Mode,
    BufferSize,
    BufferKeep,
    Concurrency,
    MaxDemand,
    MinDemand,
    Cancel,
    PartitionBy,
    Kind,
    Steps,
    Failed,
    Restart,
    BatchSize,
    BatchTimeout,
    Dispatch,
    Select,
    Sinks,
}

/// A whole number's least and greatest value, and what stands for one that is not given.
#[derive(Clone, Copy)]
pub struct Range {
    pub low: u32,
    pub high: u32,
    pub default: u32,
}

/// The texts that a key may hold.
#[derive(Clone, Copy)]
pub enum Shape {
    Name,
    Edge,
    Source,
    Reason,
    Rule,
    Selector,
    Any,
    Mode,
    Keep,
    Cancel,
    Restart,
    Kind,
    BatchKind,
}

/// What a key may hold: a whole number, a text, at most 64 rules, as many sinks as this, or as many selectors where the
/// dispatcher broadcasts.
#[derive(Clone, Copy)]
pub enum Form {
    Whole(Range),
    Text(Shape),
    RuleTexts,
    SinkTexts(u32),
    SelectTexts(u32, bool),
}

/// A key of a table, and the version of the file from which on the table has it.
#[derive(Clone, Copy)]
pub struct Row {
    pub key: Key,
    pub since: FileVersion,
    pub required: bool,
    pub form: Form,
}

/// The tables of the file: the pipeline's, with so many producers beside it, and of a producer and a batcher several.
#[derive(Clone, Copy, PartialEq, Eq)]
pub enum Section {
    Pipeline(usize),
    Producer,
    Processors,
    Supervisor,
    Batcher,
}

impl FileVersion {
    /// Whether a file of this version has the keys that came with that one.
    pub fn has(self, since: FileVersion) -> bool
        ensures { result ≡ format.has self since }
    {
        match since {
            FileVersion::One => true,
            FileVersion::Two => match self {
                FileVersion::One => false,
                FileVersion::Two => true,
            },
        }
    }
}

impl Key {
    /// The key as the file spells it.
    pub fn name(self) -> &'static str
        ensures { result.now ≡ format.key_name self }
    {
        match self {
            Key::Version => "version",
            Key::Pipeline => "pipeline",
            Key::Producer => "producer",
            Key::Processors => "processors",
            Key::Supervisor => "supervisor",
            Key::Batcher => "batcher",
            Key::MaxRestarts => "max_restarts",
            Key::MaxSeconds => "max_seconds",
            Key::IdleLimit => "idle_limit",
            Key::RecordLimit => "record_limit",
            Key::ByteLimit => "byte_limit",
            Key::Control => "control",
            Key::AllowedMessages => "allowed_messages",
            Key::Interval => "interval",
            Key::Name => "name",
            Key::Source => "source",
            Key::Mode => "mode",
            Key::BufferSize => "buffer_size",
            Key::BufferKeep => "buffer_keep",
            Key::Concurrency => "concurrency",
            Key::MaxDemand => "max_demand",
            Key::MinDemand => "min_demand",
            Key::Cancel => "cancel",
            Key::PartitionBy => "partition_by",
            Key::Kind => "kind",
            Key::Steps => "steps",
            Key::Failed => "failed",
            Key::Restart => "restart",
            Key::BatchSize => "batch_size",
            Key::BatchTimeout => "batch_timeout",
            Key::Dispatch => "dispatch",
            Key::Select => "select",
            Key::Sinks => "sinks",
        }
    }
}

/// What the table holds at the key.
pub fn value_at(table: &Table, key: Key) -> Option<&Value>
    ensures { option_map (λ value. view value.now) result ≡ format.value_at key (table_view table.now) }
{
    table.get(key.name())
}

impl Range {
    /// The number, if it lies in the range.
    pub fn checked(self, value: i64) -> Option<u32>
        ensures { result ≡ format.given_number self (Some value) }
    {
        if value >= i64::from(self.low) && value <= i64::from(self.high) {
            Some(value as u32)
        } else {
            None
        }
    }
}

/// The whole number at the key, where one in the range is given.
pub fn given(table: &Table, key: Key, range: Range) -> Option<u32>
    ensures { result ≡ format.given range key (table_view table.now) }
{
    match value_at(table, key) {
        Some(value) => match value.as_integer() {
            Some(value) => range.checked(value),
            None => None,
        },
        None => None,
    }
}

/// The whole number at the key, or the default.
pub fn number(table: &Table, key: Key, range: Range) -> u32
    ensures { result ≡ format.number range key (table_view table.now) }
{
    match given(table, key, range) {
        Some(value) => value,
        None => range.default,
    }
}
