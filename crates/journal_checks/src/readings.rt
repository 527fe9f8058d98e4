//! Lines of a journal's text, and what their reading comes to.

ghost use Rattle.std.specs.Prelude.{◌==◌, ◌+◌, ◌&&◌, nat_lt, Some, None, if◌then◌else◌};
ghost use Rattle.pipe_types.specs.Numbers.{stage, message_no};

use super::reads::shown;
use journal_texts::lines::step_line;
use line_reading::{Fault, JobMessages, ReadError, read_line};
use pipe_types::message::Reply;
use pipe_types::numbers::{MsgNo, Post, StageNo};
use pipe_types::step::Step;
use std::io;

/// Jobs of three messages at each post of stage 2, with the numbers 3 to 5 and the producer 1. No other job is out.
struct Chunks;

impl JobMessages for Chunks {
    ghost jobs = { λ chunks post at. if post.stage.0 == 2 && nat_lt at 3 then Some (message_no (at + 3), stage 1) else None };

    fn message_at(&self, post: Post, at: usize) -> Option<(MsgNo, StageNo)> {
        if post.stage.0 == 2 && at < 3 {
            Some((MsgNo(at as u32 + 3), StageNo(1)))
        } else {
            None
        }
    }
}

/// The step of the line as its line, with its messages, or the fault.
pub fn tell_reading(rt: &HostRuntime, line: &str) -> io::Result<()> {
    match read_line(rt.alloc(), &Chunks, line.as_bytes()) {
        Ok(step) => tell_step_read(rt, &step),
        Err(error) => println!(rt; "{}: {line}", word_of(&error)),
    }
}

fn tell_step_read(rt: &HostRuntime, step: &Step) -> io::Result<()> {
    let line = step_line(rt.alloc(), step)?;
    print!(rt; "read: {}", shown(line.as_slice()))?;
    tell_messages(rt, step)
}

fn tell_messages(rt: &HostRuntime, step: &Step) -> io::Result<()> {
    match step {
        Step::Done { replies, .. } => {
            for reply in replies.as_slice() {
                tell_message(rt, reply)?;
            }
            Ok(())
        }
        Step::ChildEnd { reply, .. } => tell_message(rt, reply),
        _ => Ok(()),
    }
}

fn tell_message(rt: &HostRuntime, reply: &Reply) -> io::Result<()> {
    match reply {
        Reply::Pass(message) => {
            println!(rt;
                "  message {} of producer {}",
                message.no.0, message.producer.0
            )
        }
        _ => Ok(()),
    }
}

/// What a passed reply with a payload of so many bytes is read as.
pub fn tell_payload(rt: &HostRuntime, count: u64) -> io::Result<()> {
    let mut line = Vec::from_slice(rt.alloc(), b"done 2 p:0:0:-:")?;
    for _ in 0..count {
        line.extend_from_slice(b"61")?;
    }
    match read_line(rt.alloc(), &Chunks, line.as_slice()) {
        Ok(_) => println!(rt; "read: a payload of {count}"),
        Err(error) => println!(rt; "{}: a payload of {count}", word_of(&error)),
    }
}

fn word_of(error: &ReadError) -> &'static str {
    match error {
        ReadError::Memory => "memory",
        ReadError::Fault(Fault::Word) => "word",
        ReadError::Fault(Fault::Number) => "number",
        ReadError::Fault(Fault::Bytes) => "bytes",
    }
}
