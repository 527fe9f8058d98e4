//! What an audit says.

ghost use Rattle.std.specs.Prelude.{◌≡◌, IfOk, Some};
ghost use Rattle.journal_audit.specs.Causes.{cause_seen};

use journal_reading::JournalFault;
use std::alloc::AllocError;

/// Why a line is bad: the first of these that is met.
#[derive(Clone, Copy, PartialEq, Eq)]
pub enum BadCause {
    /// The text does not begin with the line `journal 1`.
    Header,
    /// Not one of the known words, or the wrong number of them.
    Word,
    /// No number, or one that does not fit, or no message for a passed reply.
    Number,
    /// No bytes, no reason, no list, or one that is too long.
    Bytes,
    /// No end line, or one that does not have the number of steps.
    End,
    /// The step is not legal after the steps of the lines before.
    Step,
}

/// What the steps of a legal journal come to.
#[derive(Clone, Copy, PartialEq, Eq)]
pub struct Summary {
    pub steps: u64,
    pub accepted: u32,
    pub successful: u32,
    pub failed: u32,
    pub lost: u32,
    /// The drain has begun, no job is out, and every accepted message is acknowledged or lost.
    pub drained: bool,
    /// The pipeline has halted.
    pub halted: bool,
}

/// The text is that of a legal journal, or its first bad line, from 1, with the cause.
#[derive(Clone, Copy, PartialEq, Eq)]
pub enum Verdict {
    Legal(Summary),
    Bad { line: u64, cause: BadCause },
}

/// The fault of a line by its name here. Want of memory is none.
pub(crate) fn cause_of(fault: JournalFault) -> Result<BadCause, AllocError>
    ensures { IfOk result (λ cause. cause_seen fault ≡ Some cause) }
{
    match fault {
        JournalFault::Header => Ok(BadCause::Header),
        JournalFault::Word => Ok(BadCause::Word),
        JournalFault::Number => Ok(BadCause::Number),
        JournalFault::Bytes => Ok(BadCause::Bytes),
        JournalFault::End => Ok(BadCause::End),
        JournalFault::OutOfMemory => Err(AllocError),
    }
}
