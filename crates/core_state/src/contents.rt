//! The messages that the journal passes on.

ghost use Rattle.std.specs.Prelude.{◌≡◌, ◌≤◌, ◌-◌, slice_get, option_map};
ghost use Rattle.pipe_journal.specs.Items.{message_seen};
ghost use Rattle.core_laws.specs.Contents.{passed_by};

use core_tables::rows::ContentRow;
use pipe_journal::{Journal, MessageView, ReplyView};

/// The row of the message with that number.
pub fn content_at(contents: &[ContentRow], no: u32) -> Option<ContentRow>
    requires least { 1 ≤ no }
    ensures { result ≡ slice_get contents.now (no - 1) }
{
    contents.get(no as usize - 1).copied()
}

/// The message that the reply at that place of the journal passes on.
pub fn message_at(journal: &Journal, row: Option<ContentRow>) -> Option<MessageView<'_>>
    ensures { option_map message_seen result ≡ passed_by journal.now.steps row }
{
    let row = row?;
    match journal.reply_at(row.entry, row.item) {
        Some(ReplyView::Pass(message)) => Some(message),
        _ => None,
    }
}
