//! Why a topology file is refused.

ghost use Rattle.std.specs.Prelude.{◌≡◌, IfOk};
ghost use Rattle.config_table.specs.Fault.{number_of, sooner as sooner_of, under as under_of, at_place as at_place_of};

use pipe_types::bytes::Text;
use std::alloc::{AllocError, Global};
use thiserror::Error;

/// Why a topology file is refused. A text is the path of the place: keys and positions joined by dots.
#[derive(Debug, Drop, Error)]
pub enum ConfigFault {
    #[error("no TOML of at most 1,048,576 bytes")]
    NotToml,
    #[error("{}: expected version 1 or 2", .0.as_str())]
    Version(Text),
    #[error("{}: unknown key", .0.as_str())]
    UnknownKey(Text),
    #[error("{}: missing", .0.as_str())]
    Missing(Text),
    #[error("{}: a value of another type", .0.as_str())]
    WrongType(Text),
    #[error("{}: out of range", .0.as_str())]
    OutOfRange(Text),
    #[error("{}: a name that stood before", .0.as_str())]
    DuplicateName(Text),
    #[error("{}: a route to no batcher", .0.as_str())]
    UnknownBatcher(Text),
    #[error("no pipeline of these stages")]
    NoStage,
    #[error("more than 64 stages")]
    TooManyStages,
    #[error("{}: no dispatcher", .0.as_str())]
    BadDispatch(Text),
    #[error("{}: no route leads to this batcher", .0.as_str())]
    Unreachable(Text),
    #[error("out of memory")]
    OutOfMemory,
}

/// The fault's number, 1 to 12 in the order in which faults are tried, and 0 for want of memory.
pub fn fault_number(fault: &ConfigFault) -> u8
    ensures { result ≡ number_of fault.now }
{
    match fault {
        ConfigFault::NotToml => 1,
        ConfigFault::Version(_) => 2,
        ConfigFault::UnknownKey(_) => 3,
        ConfigFault::Missing(_) => 4,
        ConfigFault::WrongType(_) => 5,
        ConfigFault::OutOfRange(_) => 6,
        ConfigFault::DuplicateName(_) => 7,
        ConfigFault::UnknownBatcher(_) => 8,
        ConfigFault::NoStage => 9,
        ConfigFault::TooManyStages => 10,
        ConfigFault::BadDispatch(_) => 11,
        ConfigFault::Unreachable(_) => 12,
        ConfigFault::OutOfMemory => 0,
    }
}

/// Of two faults the one of the lower number, and of two of one number the first.
pub fn sooner(first: Option<ConfigFault>, second: Option<ConfigFault>) -> Option<ConfigFault>
    ensures { result ≡ sooner_of first second }
{
    match (first, second) {
        (None, second) => second,
        (Some(first), None) => Some(first),
        (Some(first), Some(second)) => {
            if fault_number(&second) < fault_number(&first) {
                Some(second)
            } else {
                Some(first)
            }
        }
    }
}

/// A copy of the text.
pub fn copied(alloc: Global, text: &str) -> Result<Text, AllocError>
    ensures { IfOk result (λ copy. copy ≡ text.now) }
{
    Ok(Text::from_string(String::from_str(alloc, text)?))
}

/// The path of a key under this one.
pub fn under(alloc: Global, path: &str, key: &str) -> Result<Text, AllocError>
    ensures { IfOk result (λ text. text ≡ under_of path.now key.now) }
{
    Ok(Text::from_string(format!(in alloc; "{path}.{key}")?))
}

/// The path of a position under this one.
pub fn at_place(alloc: Global, path: &str, place: usize) -> Result<Text, AllocError>
    ensures { IfOk result (λ text. text ≡ at_place_of path.now place) }
{
    Ok(Text::from_string(format!(in alloc; "{path}.{place}")?))
}
