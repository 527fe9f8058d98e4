//! From the bytes of a file to its topology.

ghost use Rattle.std.specs.{Prelude.{◌≡◌, ◌≢◌, ◌<◌, ◌^◌, codes, Some, None, Ok, Err, IfOk, IfErr}, Option.{ForSome}};
ghost use Rattle.toml.specs.View.{table_view};
ghost use Rattle.pipe_types.specs.Sound.{IsSound};
ghost use Rattle.pipe_config.specs.File.{table_of, topology_by, topology_of, judged as judged_of, topology_of_file, Answers, IsAccepted};
ghost use Rattle.config_settings.specs.Settings.{settings_of};
ghost use Rattle.config_build.specs.Build.{partition_field};

use config_build::build::build_topology;
use config_judge::judge::settings_fault;
use config_settings::read::read_settings;
use config_settings::settings::Settings;
use config_table::fault::{ConfigFault, copied};
use config_table::format::FileVersion;
use config_table::walk::{version_of, walk_fault};
use pipe_types::topology::Topology;
use std::alloc::Global;
use toml::Table;

/// The longest topology file, in bytes.
const LONGEST: usize = 1_048_576;

/// The table that the bytes are.
#[tactic(auto, using(crate::proofs::Table::no_text))]
fn read_table(alloc: Global, bytes: &[u8]) -> Result<Table, ConfigFault>
    ensures ok { IfOk result (λ table. table_of bytes.now ≡ Some (table_view table)) }
    ensures refused { IfErr result (λ fault. fault ≢ ConfigFault.OutOfMemory → (fault ≡ ConfigFault.NotToml) × (table_of bytes.now ≡ None)) }
{
    if bytes.len() > LONGEST {
        return Err(ConfigFault::NotToml);
    }
    match toml::table_from_slice(alloc, bytes) {
        Ok(table) => Ok(table),
        Err(error) => {
            if error.is_memory() {
                Err(ConfigFault::OutOfMemory)
            } else {
                Err(ConfigFault::NotToml)
            }
        }
    }
}

/// The topology of settings, or their first fault.
fn judge_settings(alloc: Global, settings: &Settings) -> Result<Topology, ConfigFault>
    requires { ForSome (partition_field settings.now.processors) (λ n. n < 2 ^ 16) }
    ensures { Answers (judged_of settings.now) result }
{
    let fault = match settings_fault(alloc, settings) {
        Ok(fault) => fault,
        Err(_) => return Err(ConfigFault::OutOfMemory),
    };
    match fault {
        Some(fault) => Err(fault),
        None => match build_topology(alloc, settings) {
            Ok(topology) => Ok(topology),
            Err(_) => Err(ConfigFault::OutOfMemory),
        },
    }
}

/// The topology of a table without faults in its places, or the first fault of its values.
fn judge_values(alloc: Global, table: &Table) -> Result<Topology, ConfigFault>
    ensures { Answers (judged_of (settings_of (table_view table.now))) result }
{
    match read_settings(alloc, table) {
        Ok(settings) => judge_settings(alloc, &settings),
        Err(_) => Err(ConfigFault::OutOfMemory),
    }
}

fn wrong_version(alloc: Global) -> ConfigFault
    ensures { result ≢ ConfigFault.OutOfMemory → result ≡ ConfigFault.Version (codes "version") }
{
    match copied(alloc, "version") {
        Ok(path) => ConfigFault::Version(path),
        Err(_) => ConfigFault::OutOfMemory,
    }
}

/// The topology of the table of a file of this version, or its first fault.
fn judge_places(alloc: Global, version: FileVersion, table: &Table) -> Result<Topology, ConfigFault>
    ensures { Answers (topology_by (Some version) (table_view table.now)) result }
{
    let fault = match walk_fault(alloc, version, table) {
        Ok(fault) => fault,
        Err(_) => return Err(ConfigFault::OutOfMemory),
    };
    match fault {
        Some(fault) => Err(fault),
        None => judge_values(alloc, table),
    }
}

/// The topology of a table, or its first fault.
fn judge_table(alloc: Global, table: &Table) -> Result<Topology, ConfigFault>
    ensures { Answers (topology_of (table_view table.now)) result }
{
    match version_of(table) {
        None => Err(wrong_version(alloc)),
        Some(version) => judge_places(alloc, version, table),
    }
}

/// The table of a file that names a topology, or its first fault.
pub(crate) fn read_judged(alloc: Global, bytes: &[u8]) -> Result<Table, ConfigFault>
    ensures ok { IfOk result (λ table. IsAccepted bytes.now (table_view table)) }
    ensures refused { IfErr result (λ fault. fault ≢ ConfigFault.OutOfMemory → topology_of_file bytes.now ≡ Err fault) }
{
    let table = read_table(alloc, bytes)?;
    match judge_table(alloc, &table) {
        Ok(_) => Ok(table),
        Err(fault) => Err(fault),
    }
}

fn answer_of(alloc: Global, bytes: &[u8]) -> Result<Topology, ConfigFault>
    ensures { Answers (topology_of_file bytes.now) result }
{
    match read_table(alloc, bytes) {
        Ok(table) => judge_table(alloc, &table),
        Err(fault) => Err(fault),
    }
}

/// The topology that a file of these bytes names, or its first fault: the faults are tried in the order of their
/// numbers, and for one number the first place counts. Want of memory may come at any place.
pub fn read_topology(alloc: Global, bytes: &[u8]) -> Result<Topology, ConfigFault>
    ensures accepted { IfOk result (λ topology. topology_of_file bytes.now ≡ Ok topology) }
    ensures refused { IfErr result (λ fault. fault ≢ ConfigFault.OutOfMemory → topology_of_file bytes.now ≡ Err fault) }
    ensures sound { IfOk result IsSound }
{
    answer_of(alloc, bytes)
}
