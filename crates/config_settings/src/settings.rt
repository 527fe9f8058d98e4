//! The values of a topology file.

use pipe_types::bytes::Text;
use pipe_types::list::ListOf;
use pipe_types::reason::Reason;
use pipe_types::topology::{CancelMode, ChildMode, Dispatch, Keep, Kind, Rate};

/// Texts in the order of the file.
pub type TextList = ListOf<Text>;

/// How a stage asks, and whether it is killed with a stage that it takes from.
#[derive(Clone, Copy)]
pub struct Demand {
    pub mode: CancelMode,
    pub min: u32,
    pub max: u32,
}

/// What a table says of its stages' restarts: how many there may be, and in how many seconds, each where it is given.
#[derive(Clone, Copy)]
pub struct OwnLimit {
    pub max_restarts: Option<u32>,
    pub max_seconds: Option<u32>,
}

/// The handler of a stage: its kind, the texts of its rules, and the reason in place of another.
#[derive(Drop)]
pub struct Handler {
    pub kind: Kind,
    pub steps: TextList,
    pub failed: Option<Reason>,
}

#[derive(Drop)]
pub struct ProducerSettings {
    pub name: Text,
    pub source: Text,
    pub push: bool,
    pub buffer_size: u32,
    pub keep: Keep,
    pub limit: OwnLimit,
}

#[derive(Drop)]
pub struct ProcessorSettings {
    pub concurrency: u32,
    pub partition_by: Option<u32>,
    pub demand: Demand,
    pub handler: Handler,
    pub limit: OwnLimit,
}

#[derive(Drop)]
pub struct SupervisorSettings {
    pub restart: ChildMode,
    pub demand: Demand,
    pub handler: Handler,
    pub limit: OwnLimit,
}

/// A batcher with its batch processors, which share its limit. The timeout is in milliseconds; a dispatcher of another word is none.
#[derive(Drop)]
pub struct BatcherSettings {
    pub name: Text,
    pub concurrency: u32,
    pub batch_size: u32,
    pub batch_timeout: u32,
    pub demand: Demand,
    pub dispatch: Option<Dispatch>,
    pub handler: Handler,
    pub select: Option<TextList>,
    pub sinks: Option<TextList>,
    pub limit: OwnLimit,
}

/// Producers in the order of the file.
pub type ProducerList = ListOf<ProducerSettings>;

/// Batchers in the order of the file.
pub type BatcherList = ListOf<BatcherSettings>;

/// The values of a topology file. A control source is named where there is one, and so is a rate.
#[derive(Drop)]
pub struct Settings {
    pub max_restarts: u32,
    pub max_seconds: u32,
    pub idle_limit: u32,
    pub record_limit: u32,
    pub byte_limit: u32,
    pub control: Option<Text>,
    pub rate: Option<Rate>,
    pub producers: ProducerList,
    pub processors: Option<ProcessorSettings>,
    pub supervisor: Option<SupervisorSettings>,
    pub batchers: BatcherList,
}
