//! Whether two answers are the same.

ghost use Rattle.std.specs.{Prelude.{◌≡◌, if◌then◌else◌, not}, Str.{bytes_eq}};
ghost use Rattle.pipe_model.specs.Work.{same_message as same_message_in, same_reply as same_reply_in, same_replies as same_replies_in, same_outcome as same_outcome_in, same_outcomes as same_outcomes_in, same_end as same_end_in};

use pipe_types::message::{BatchEnd, Message, Outcome, Reply};

pub fn same_bytes(a: &[u8], b: &[u8]) -> bool
    ensures { result ≡ bytes_eq a.now b.now }
{
    a == b
}

fn same_message(a: &Message, b: &Message) -> bool
    ensures { result ≡ same_message_in a.now b.now }
{
    a.no.0 == b.no.0
        && (a.producer.0 == b.producer.0
            && (same_bytes(a.payload.as_slice(), b.payload.as_slice())
                && (a.batcher == b.batcher
                    && (same_bytes(a.key.as_slice(), b.key.as_slice())
                        && same_truth(a.flush, b.flush)))))
}

fn same_truth(a: bool, b: bool) -> bool
    ensures { result ≡ (if a then b else not b) }
{
    if a { b } else { !b }
}

fn same_reply(a: &Reply, b: &Reply) -> bool
    ensures { result ≡ same_reply_in a.now b.now }
{
    match (a, b) {
        (Reply::Pass(m), Reply::Pass(n)) => same_message(m, n),
        (Reply::Failed(why), Reply::Failed(other)) => same_bytes(why.as_bytes(), other.as_bytes()),
        (Reply::Raised(why), Reply::Raised(other)) => same_bytes(why.as_bytes(), other.as_bytes()),
        (Reply::Crashed, Reply::Crashed) => true,
        _ => false,
    }
}

/// Whether the two lists have the same replies.
pub fn same_replies(a: &[Reply], b: &[Reply]) -> bool
    ensures { result ≡ same_replies_in a.now b.now }
{
    if a.len() != b.len() {
        return false;
    }
    for i in 0..a.len() {
        if !same_reply(&a[i], &b[i]) {
            return false;
        }
    }
    true
}

fn same_outcome(a: &Outcome, b: &Outcome) -> bool
    ensures { result ≡ same_outcome_in a.now b.now }
{
    match (a, b) {
        (Outcome::Successful, Outcome::Successful) => true,
        (Outcome::Failed(why), Outcome::Failed(other)) => {
            same_bytes(why.as_bytes(), other.as_bytes())
        }
        _ => false,
    }
}

/// Whether the two lists have the same outcomes.
pub fn same_outcomes(a: &[Outcome], b: &[Outcome]) -> bool
    ensures { result ≡ same_outcomes_in a.now b.now }
{
    if a.len() != b.len() {
        return false;
    }
    for i in 0..a.len() {
        if !same_outcome(&a[i], &b[i]) {
            return false;
        }
    }
    true
}

/// Whether the two batches ended so.
pub fn same_end(a: &BatchEnd, b: &BatchEnd) -> bool
    ensures { result ≡ same_end_in a.now b.now }
{
    match (a, b) {
        (BatchEnd::Outcomes(outcomes), BatchEnd::Outcomes(others)) => {
            same_outcomes(outcomes.as_slice(), others.as_slice())
        }
        (BatchEnd::Crashed, BatchEnd::Crashed) => true,
        _ => false,
    }
}
