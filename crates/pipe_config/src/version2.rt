//! The text of a topology file as version 2.

ghost use Rattle.std.specs.{Prelude.{◌≡◌, true, [], Some, Ok, IfOk, IfErr, OnOk, string_bytes}, Str.{is_utf8}};
ghost use Rattle.toml.specs.{View.{table_view}, Parse.{parse_document}};
ghost use Rattle.config_table.specs.declared.format.FileVersion.TheVariants as version;
ghost use Rattle.config_table.specs.Walk.{version_of, faults_of};
ghost use Rattle.pipe_types.specs.declared.topology.Topology.{Topology};
ghost use Rattle.pipe_config.specs.{File.{topology_of, topology_of_file}, Upgrade.{with_version_2, refusal_of, IsUpgrade, IsRefused}};

use crate::flat::is_flat;
use crate::read::read_judged;
use config_table::fault::ConfigFault;
use pipe_types::bytes::Bytes;
use std::alloc::{AllocError, Global};
use thiserror::Error;
use toml::ser::Error as PrintError;
use toml::{Table, Value};

/// Why there is no text of version 2.
#[derive(Debug, Drop, Error)]
pub enum UpgradeFault {
    #[error("the topology file is refused")]
    Refused(ConfigFault),
    #[error("out of memory")]
    OutOfMemory,
}

/// Writes the whole number 2 under `version`.
fn set_version(alloc: Global, table: &mut Table) -> Result<(), AllocError>
    ensures { OnOk result (table_view table.new ≡ with_version_2 (table_view table.old)) }
{
    let key = String::from_str(alloc, "version")?;
    match table.insert(key, Value::from(2i64)) {
        Ok(_) => Ok(()),
        Err(_) => Err(AllocError),
    }
}

/// The text of the table of a file of version 2 without faults in its places, which is flat: it is printed, and read back.
/// Want of memory is answered only where the printer finds none.
fn text_of(alloc: Global, table: &Table) -> Result<String, AllocError>
    requires version { version_of (table_view table.now) ≡ Some version.Two }
    requires faultless { faults_of version.Two (table_view table.now) ≡ [] }
    ensures { IfOk result (λ text. parse_document (string_bytes text) ≡ Some (table_view table.now)) }
{
    prove!(is_flat(table));
    match toml::table_to_string(alloc, table) {
        Ok(text) => Ok(text),
        Err(PrintError::OutOfMemory) => Err(AllocError),
        Err(PrintError::DateInvalid) => unreachable!(),
    }
}

/// The bytes of a text.
fn bytes_of(alloc: Global, text: &str) -> Result<Bytes, AllocError>
    ensures { IfOk result (λ bytes. bytes ≡ text.now) }
{
    Ok(Bytes::from_vec(Vec::from_slice(alloc, text.as_bytes())?))
}

/// The bytes of a text, which are UTF-8.
fn text_bytes(alloc: Global, text: &str) -> Result<Bytes, AllocError>
    ensures same { IfOk result (λ bytes. bytes ≡ text.now) }
    ensures text { IfOk result (λ bytes. is_utf8 bytes ≡ true) }
{
    bytes_of(alloc, text)
}

/// The text of the table with version 2.
fn upgraded_bytes(alloc: Global, table: Table) -> Result<Bytes, AllocError>
    requires { (topology : Topology) × (topology_of (table_view table) ≡ Ok topology) }
    ensures text { IfOk result (λ bytes. is_utf8 bytes ≡ true) }
    ensures reads { IfOk result (λ bytes. parse_document bytes ≡ Some (with_version_2 (table_view table))) }
{
    let mut table = table;
    set_version(alloc, &mut table)?;
    let text = text_of(alloc, &table)?;
    text_bytes(alloc, text.as_str())
}

fn refusal(fault: ConfigFault) -> UpgradeFault
    ensures { result ≡ refusal_of fault }
{
    match fault {
        ConfigFault::OutOfMemory => UpgradeFault::OutOfMemory,
        fault => UpgradeFault::Refused(fault),
    }
}

/// The topology file of these bytes as a file of version 2: the table with the whole number 2 under `version`, as the printer
/// of TOML prints it, so that comments and the layout are lost. Where the text is no longer than a topology file may be, it
/// names the same topology. A file that is refused is not upgraded. Want of memory may come at any place.
pub fn upgrade(alloc: Global, bytes: &[u8]) -> Result<Bytes, UpgradeFault>
    ensures upgraded { IfOk result (λ text. IsUpgrade bytes.now text) }
    ensures refused { IfErr result (λ fault. IsRefused (topology_of_file bytes.now) fault) }
{
    let table = match read_judged(alloc, bytes) {
        Ok(table) => table,
        Err(fault) => return Err(refusal(fault)),
    };
    match upgraded_bytes(alloc, table) {
        Ok(text) => Ok(text),
        Err(_) => Err(UpgradeFault::OutOfMemory),
    }
}
