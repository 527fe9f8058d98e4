//! The walk of a topology file: keys in byte order, arrays by position, depth first.

ghost use Rattle.std.specs.Prelude.{◌≡◌, bytes_eq, flat_map, Some, IfOk};
ghost use Rattle.toml.specs.{Data.{as_array, as_table}, View.{view, items_view, table_view}};
ghost use Rattle.config_table.specs.{Fault.{least}, Format.{key_name}};
ghost use Rattle.config_table.specs.Walk as walk;

use crate::fault::{ConfigFault, at_place, copied, sooner, under};
use crate::format::{FileVersion, Key, Row, Section, value_at};
use crate::rows::rows;
use crate::value::value_fault;
use config_rule::sources::is_merged_source;
use std::alloc::{AllocError, Global};
use toml::{Table, Value};

/// One more than the most records of an interval.
const TOO_MANY_RECORDS: usize = 1_000_001;

fn is_known(version: FileVersion, rows: &[Row], key: &str) -> bool
    ensures { result ≡ walk.is_known version rows.now key.now }
{
    rows.iter()
        .any(|row| version.has(row.since) && row.key.name() == key)
}

fn key_fault(
    alloc: Global,
    version: FileVersion,
    path: &str,
    rows: &[Row],
    key: &str,
) -> Result<Option<ConfigFault>, AllocError>
    ensures { IfOk result (λ found. found ≡ least (walk.key_faults version path.now rows.now key.now)) }
{
    if is_known(version, rows, key) {
        return Ok(None);
    }
    Ok(Some(ConfigFault::UnknownKey(under(alloc, path, key)?)))
}

/// The first key of the table that has no row.
fn unknown_key(
    alloc: Global,
    version: FileVersion,
    path: &str,
    rows: &[Row],
    table: &Table,
) -> Result<Option<ConfigFault>, AllocError>
    ensures { IfOk result (λ found. found ≡ least (walk.unknown_keys version path.now rows.now (table_view table.now))) }
{
    let mut found = None;
    'members: for (key, _value) in table.iter() {
        let fault = key_fault(alloc, version, path, rows, key.as_str())?;
        found = sooner(found, fault);
    }
    Ok(found)
}

fn missing_fault(
    alloc: Global,
    path: &str,
    required: bool,
) -> Result<Option<ConfigFault>, AllocError>
    ensures { IfOk result (λ found. found ≡ least (walk.missing_faults path.now required)) }
{
    if required {
        Ok(Some(ConfigFault::Missing(copied(alloc, path)?)))
    } else {
        Ok(None)
    }
}

/// The first fault of what the table holds at the row's key, where the version has it.
fn row_fault(
    alloc: Global,
    version: FileVersion,
    path: &str,
    table: &Table,
    row: Row,
) -> Result<Option<ConfigFault>, AllocError>
    ensures { IfOk result (λ found. found ≡ least (walk.row_faults version path.now (table_view table.now) row)) }
{
    if !version.has(row.since) {
        return Ok(None);
    }
    let path = under(alloc, path, row.key.name())?;
    match value_at(table, row.key) {
        None => missing_fault(alloc, path.as_str(), row.required),
        Some(value) => value_fault(alloc, path.as_str(), row.form, value),
    }
}

/// The first fault of the rows.
fn held_fault(
    alloc: Global,
    version: FileVersion,
    path: &str,
    rows: &[Row],
    table: &Table,
) -> Result<Option<ConfigFault>, AllocError>
    ensures { IfOk result (λ found. found ≡ least (flat_map (walk.row_faults version path.now (table_view table.now)) rows.now)) }
{
    let mut found = None;
    for row in rows {
        let fault = row_fault(alloc, version, path, table, *row)?;
        found = sooner(found, fault);
    }
    Ok(found)
}

/// The first fault of a table with these rows.
#[tactic(auto, using(crate::proofs::Least::least_of_two))]
fn rows_fault(
    alloc: Global,
    version: FileVersion,
    path: &str,
    rows: &[Row],
    table: &Table,
) -> Result<Option<ConfigFault>, AllocError>
    ensures { IfOk result (λ found. found ≡ least (walk.rows_faults version path.now rows.now (table_view table.now))) }
{
    let unknown = unknown_key(alloc, version, path, rows, table)?;
    let held = held_fault(alloc, version, path, rows, table)?;
    Ok(sooner(unknown, held))
}

/// The first fault of a value that is to be a table of this section.
fn table_fault(
    alloc: Global,
    version: FileVersion,
    section: Section,
    path: &str,
    value: &Value,
) -> Result<Option<ConfigFault>, AllocError>
    ensures { IfOk result (λ found. found ≡ least (walk.table_faults version section path.now (as_table (view value.now)))) }
{
    match value.as_table() {
        None => Ok(Some(ConfigFault::WrongType(copied(alloc, path)?))),
        Some(table) => {
            let rows = rows(alloc, section, table)?;
            rows_fault(alloc, version, path, rows.as_slice(), table)
        }
    }
}

/// The first fault of the tables of an array.
fn each_fault(
    alloc: Global,
    version: FileVersion,
    section: Section,
    path: &str,
    items: &[Value],
) -> Result<Option<ConfigFault>, AllocError>
    ensures { IfOk result (λ found. found ≡ least (walk.each_faults version section path.now 0 (items_view items.now))) }
{
    let mut found = None;
    for (i, item) in items.iter().enumerate() {
        let place = at_place(alloc, path, i)?;
        let fault = table_fault(alloc, version, section, place.as_str(), item)?;
        found = sooner(found, fault);
    }
    Ok(found)
}

/// The first fault of a value that is to be an array of tables of this section.
fn array_fault(
    alloc: Global,
    version: FileVersion,
    section: Section,
    path: &str,
    value: &Value,
) -> Result<Option<ConfigFault>, AllocError>
    ensures { IfOk result (λ found. found ≡ least (walk.array_faults version section path.now (as_array (view value.now)))) }
{
    match value.as_array() {
        None => Ok(Some(ConfigFault::WrongType(copied(alloc, path)?))),
        Some(items) => each_fault(alloc, version, section, path, items.as_slice()),
    }
}

fn is_key(text: &str, key: Key) -> bool
    ensures { result ≡ bytes_eq text.now (key_name key) }
{
    text == key.name()
}

/// The first fault at a key of the file, which has so many producers.
fn top_fault(
    alloc: Global,
    version: FileVersion,
    producers: usize,
    key: &str,
    value: &Value,
) -> Result<Option<ConfigFault>, AllocError>
    ensures { IfOk result (λ found. found ≡ least (walk.top_faults version producers key.now (view value.now))) }
{
    if is_key(key, Key::Batcher) {
        array_fault(alloc, version, Section::Batcher, key, value)
    } else if is_key(key, Key::Pipeline) {
        table_fault(alloc, version, Section::Pipeline(producers), key, value)
    } else if is_key(key, Key::Processors) {
        table_fault(alloc, version, Section::Processors, key, value)
    } else if is_key(key, Key::Producer) {
        array_fault(alloc, version, Section::Producer, key, value)
    } else if is_key(key, Key::Supervisor) {
        table_fault(alloc, version, Section::Supervisor, key, value)
    } else if is_key(key, Key::Version) {
        Ok(None)
    } else {
        Ok(Some(ConfigFault::UnknownKey(copied(alloc, key)?)))
    }
}

/// Whether the source of a producer is a merge.
fn has_merged_source(producer: &Value) -> bool
    ensures { result ≡ walk.is_merged_in (as_table (view producer.now)) }
{
    match producer.as_table() {
        Some(table) => match value_at(table, Key::Source) {
            Some(source) => match source.as_str() {
                Some(text) => is_merged_source(text.as_bytes()),
                None => false,
            },
            None => false,
        },
        None => false,
    }
}

/// Whether the source of any producer is a merge.
fn is_any_merged(producers: &[Value]) -> bool
    ensures { result ≡ walk.any_merged (items_view producers.now) }
{
    for producer in producers {
        if has_merged_source(producer) {
            return true;
        }
    }
    false
}

/// How many records a rate needs at least: one for each producer, and more than it may have where the source of one is a
/// merge.
#[tactic(auto, using(crate::proofs::Items::count_lemma))]
fn rate_need(table: &Table) -> usize
    ensures { result ≡ walk.rate_need (table_view table.now) }
{
    match value_at(table, Key::Producer) {
        Some(value) => match value.as_array() {
            Some(items) => {
                if is_any_merged(items.as_slice()) {
                    TOO_MANY_RECORDS
                } else {
                    items.len()
                }
            }
            None => 0,
        },
        None => 0,
    }
}

/// The first fault of the members of a file whose rate needs so many records.
fn members_fault(
    alloc: Global,
    version: FileVersion,
    producers: usize,
    table: &Table,
) -> Result<Option<ConfigFault>, AllocError>
    ensures { IfOk result (λ found. found ≡ least (walk.faults_beside version producers (table_view table.now))) }
{
    let mut found = None;
    'members: for (key, value) in table.iter() {
        let fault = top_fault(alloc, version, producers, key.as_str(), value)?;
        found = sooner(found, fault);
    }
    Ok(found)
}

/// The fault of the lowest number, 3 to 6, that comes first in the walk of the file.
pub fn walk_fault(
    alloc: Global,
    version: FileVersion,
    table: &Table,
) -> Result<Option<ConfigFault>, AllocError>
    ensures { IfOk result (λ found. found ≡ least (walk.faults_of version (table_view table.now))) }
{
    members_fault(alloc, version, rate_need(table), table)
}

fn version_in(number: i64) -> Option<FileVersion>
    ensures { result ≡ walk.version_in (Some number) }
{
    if number == 1 {
        Some(FileVersion::One)
    } else if number == 2 {
        Some(FileVersion::Two)
    } else {
        None
    }
}

/// The version of the file, where `version` is the whole number 1 or 2.
pub fn version_of(table: &Table) -> Option<FileVersion>
    ensures { result ≡ walk.version_of (table_view table.now) }
{
    match value_at(table, Key::Version) {
        None => None,
        Some(value) => match value.as_integer() {
            Some(number) => version_in(number),
            None => None,
        },
    }
}
