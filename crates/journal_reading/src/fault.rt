//! Why a text is refused.

ghost use Rattle.std.specs.Prelude.{◌≡◌};
ghost use Rattle.journal_reading.specs.Faults.{fault_of as fault_as};

use line_reading::Fault;

/// What is wrong with a line: the first of these that is met.
#[derive(Clone, Copy, PartialEq, Eq)]
pub enum JournalFault {
    /// The text does not begin with the line `journal 1`.
    Header,
    /// Not one of the known words, or the wrong number of them.
    Word,
    /// No number, or one that does not fit, or no message for a passed reply.
    Number,
    /// No bytes, no reason, no list, or one that is too long.
    Bytes,
    /// No end line, or one that does not have the number of steps.
    End,
    /// Memory was wanting.
    OutOfMemory,
}

/// The first bad line of a text, from 1, and its first fault. Where memory was wanting it is the line at which it was.
#[derive(Clone, Copy, PartialEq, Eq)]
pub struct JournalRefusal {
    pub line: u64,
    pub fault: JournalFault,
}

/// The fault by its name here.
pub(crate) fn fault_of(fault: Fault) -> JournalFault
    ensures { result ≡ fault_as fault }
{
    match fault {
        Fault::Word => JournalFault::Word,
        Fault::Number => JournalFault::Number,
        Fault::Bytes => JournalFault::Bytes,
    }
}
