//! What is read of a journal.

use super::words::{long, number};
use journal_texts::lines::{journal_text, step_line};
use pipe_journal::{Journal, ReplyView};
use std::io;

pub fn tell_length(rt: &HostRuntime, journal: &Journal) -> io::Result<()> {
    let (count, empty) = (journal.len(), journal.is_empty());
    println!(rt; "length {count}, empty {empty}")
}

pub fn tell_step(rt: &HostRuntime, journal: &Journal, rest: &str) -> io::Result<()> {
    match journal.get(long(rest, 0))? {
        Some(step) => {
            let line = step_line(rt.alloc(), &step)?;
            print!(rt; "{}", shown(line.as_slice()))
        }
        None => println!(rt; "none"),
    }
}

pub fn tell_text(rt: &HostRuntime, journal: &Journal) -> io::Result<()> {
    let text = journal_text(rt.alloc(), journal)?;
    print!(rt; "{}", shown(text.as_slice()))
}

pub fn tell_record(rt: &HostRuntime, journal: &Journal, rest: &str) -> io::Result<()> {
    match journal.payload_at(long(rest, 0), number(rest, 1)) {
        Some(record) => println!(rt; "record {rest}: |{}|", shown(record)),
        None => println!(rt; "record {rest}: none"),
    }
}

pub fn tell_reply(rt: &HostRuntime, journal: &Journal, rest: &str) -> io::Result<()> {
    println!(rt;
        "reply {rest}: {}",
        in_short(journal.reply_at(long(rest, 0), number(rest, 1)))
    )
}

/// The payload of a message that passes, or the kind of another reply.
fn in_short(reply: Option<ReplyView<'_>>) -> &str {
    match reply {
        Some(ReplyView::Pass(message)) => shown(message.payload),
        Some(ReplyView::Failed(_)) => "failed",
        Some(ReplyView::Raised(_)) => "raised",
        Some(ReplyView::Crashed) => "crashed",
        None => "none",
    }
}

/// The bytes as a text.
pub fn shown(bytes: &[u8]) -> &str {
    str::from_utf8(bytes).unwrap_or("no text")
}
