//! Why a line could not be read.

ghost use Rattle.std.specs.Prelude.{◌≡◌};
ghost use Rattle.line_reading.specs.declared.fault.ReadError.TheVariants.{Memory};

use std::alloc::{AllocError, AllocFailed};

/// What is wrong with a line: the first of these that is met.
#[derive(Clone, Copy)]
pub enum Fault {
    /// Not one of the known words, or the wrong number of them.
    Word,
    /// No number, or one that does not fit, or no message for a passed reply.
    Number,
    /// No bytes, no reason, no list, or one that is too long.
    Bytes,
}

/// A fault, or want of memory.
#[derive(Drop)]
pub enum ReadError {
    Memory,
    Fault(Fault),
}

impl From<AllocError> for ReadError {
    ghost from_gives = { λ _ e. e ≡ Memory };

    fn from(_e: AllocError) -> ReadError {
        ReadError::Memory
    }
}

impl<T: Drop> From<AllocFailed<T>> for ReadError {
    ghost from_gives = { λ _ e. e ≡ Memory };

    fn from(_e: AllocFailed<T>) -> ReadError {
        ReadError::Memory
    }
}
