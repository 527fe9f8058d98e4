//! One pull producer and one processor that wants a prefix.

ghost use Rattle.std.specs.Prelude.{◌≡◌, ◌++◌, codes, IfOk};
ghost use Rattle.pipe_types.specs.Sound.{IsSound};
ghost use Rattle.config_flow.specs.Flow as spec;

use config_build::build::build_topology;
use config_settings::settings::{
    BatcherList, Demand, Handler, OwnLimit, ProcessorSettings, ProducerList, ProducerSettings,
    Settings, TextList,
};
use config_table::fault::copied;
use config_table::format::Range;
use pipe_types::bytes::Text;
use pipe_types::topology::{CancelMode, Keep, Kind, Topology};
use std::alloc::{AllocError, Global};

/// The pipeline's limit on restarts.
const NO_LIMIT: OwnLimit = OwnLimit {
    max_restarts: None,
    max_seconds: None,
};

/// The producer `source`, which pulls from this source.
fn source_settings(alloc: Global, source: &str) -> Result<ProducerSettings, AllocError>
    ensures { IfOk result (λ producer. producer ≡ spec.source_settings source.now) }
{
    let name = copied(alloc, "source")?;
    let source = copied(alloc, source)?;
    Ok(ProducerSettings {
        name,
        source,
        push: false,
        buffer_size: Range::BUFFER_SIZE.default,
        keep: Keep::Last,
        limit: NO_LIMIT,
    })
}

/// The text of the rule that a message begins with this prefix.
fn require_text(alloc: Global, prefix: &str) -> Result<Text, AllocError>
    ensures { IfOk result (λ text. text ≡ codes "require " ++ prefix.now) }
{
    Ok(Text::from_string(format!(in alloc; "require {prefix}")?))
}

/// One processor with the default demand, whose only rule is `require PREFIX`.
fn require_settings(alloc: Global, prefix: &str) -> Result<ProcessorSettings, AllocError>
    ensures { IfOk result (λ processors. processors ≡ spec.require_settings prefix.now) }
{
    let mut steps = Vec::new(alloc);
    steps.push(require_text(alloc, prefix)?)?;
    let max = Range::PROCESSORS_MAX.default;
    Ok(ProcessorSettings {
        concurrency: 1,
        partition_by: None,
        demand: Demand {
            mode: CancelMode::Temporary,
            min: Range::min_demand(max).default,
            max,
        },
        handler: Handler {
            kind: Kind::Steps,
            steps: TextList::from_vec(steps),
            failed: None,
        },
        limit: NO_LIMIT,
    })
}

/// One such producer, one such processor, and all else by default.
fn flow_settings(alloc: Global, source: &str, prefix: &str) -> Result<Settings, AllocError>
    ensures { IfOk result (λ settings. settings ≡ spec.flow_settings source.now prefix.now) }
{
    let mut producers = Vec::new(alloc);
    producers.push(source_settings(alloc, source)?)?;
    let processors = require_settings(alloc, prefix)?;
    Ok(Settings {
        max_restarts: Range::MAX_RESTARTS.default,
        max_seconds: Range::MAX_SECONDS.default,
        idle_limit: Range::IDLE_LIMIT.default,
        record_limit: Range::RECORD_LIMIT.default,
        byte_limit: Range::BYTE_LIMIT.default,
        control: None,
        rate: None,
        producers: ProducerList::from_vec(producers),
        processors: Some(processors),
        supervisor: None,
        batchers: BatcherList::from_vec(Vec::new(alloc)),
    })
}

/// The topology of one pull producer named `source` on this source and one processor whose only rule is
/// `require PREFIX`, with the format's defaults in every other place. The source may be any text: a file names
/// one of 1 to 4096 bytes, of which one that begins with `many:` names several, and then the law `file_gives_flow` says that
/// the file gives the same topology.
pub fn flow_topology(alloc: Global, source: &str, prefix: &str) -> Result<Topology, AllocError>
    ensures value { IfOk result (λ topology. topology ≡ spec.flow_topology_of source.now prefix.now) }
    ensures sound { IfOk result IsSound }
{
    let settings = flow_settings(alloc, source, prefix)?;
    build_topology(alloc, &settings)
}
