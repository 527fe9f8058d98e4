//! Reasons from words.

ghost use Rattle.std.specs.Prelude.{◌≡◌, IsTrue};
ghost use Rattle.pipe_types.specs.{Reason.{IsReasonText}, Handlers.{is_own_reason}};

use pipe_types::reason::Reason;

/// The reason with this text: 1 to 64 bytes from 0x21 to 0x7E, and not `sink`, which is the reason of a sink's fault.
pub fn reason(text: &[u8]) -> Reason
    requires form { IsReasonText text.now }
    requires own { IsTrue (is_own_reason text.now) }
    ensures { result ≡ text.now }
{
    match Reason::new(text) {
        Some(reason) => reason,
        None => unreachable!(),
    }
}
