//! The text of a batch.

ghost use Rattle.std.specs.Prelude.{◌≡◌, [], map, length, is_some, option_map};
ghost use Rattle.stage_bodies.specs.{Seen.{sink_seen}, Jobs.{Both, Writes}};
ghost use Rattle.pipe_model.specs.Work.{sink_reason};
ghost use Rattle.body_jobs.specs.Batches.{IsWritten, by_sink};

use pipe_edges::{ByteSink, PutEnd, put_all};
use pipe_types::bytes::Bytes;
use pipe_types::message::{BatchEnd, Outcome, OutcomeList};
use pipe_types::reason::Reason;

/// Writes the text of a batch that ended so, and says how many bytes went out. Where the sink takes less than the text,
/// every success becomes a failure by the sink. It takes no memory.
pub(crate) fn write_end<K: ByteSink>(
    sink: &mut Option<K>,
    end: BatchEnd,
    text: &Bytes,
) -> (u64, BatchEnd)
    requires { end ≡ BatchEnd.Crashed → text.now ≡ [] }
    ensures written { IsWritten (is_some (option_map (sink_seen K.told K.held K.faults) sink.old)) end text.now result.0 result.1 }
    ensures sink { Both (Writes result.0 text.now)
        (option_map (sink_seen K.told K.held K.faults) sink.old) (option_map (sink_seen K.told K.held K.faults) sink.new) }
{
    let BatchEnd::Outcomes(outcomes) = end else {
        return (0, BatchEnd::Crashed);
    };
    let Some(sink) = sink else {
        return (0, BatchEnd::Outcomes(outcomes));
    };
    match put_all(sink, text) {
        PutEnd::All => (text.len() as u64, BatchEnd::Outcomes(outcomes)),
        PutEnd::Failed(bytes) => (bytes as u64, BatchEnd::Outcomes(fail_by_sink(outcomes))),
    }
}

/// Every success as a failure by the sink, in place.
fn fail_by_sink(outcomes: OutcomeList) -> OutcomeList
    ensures { result ≡ map by_sink outcomes }
{
    let mut outcomes = outcomes.into_vec();
    fail_each(&mut outcomes);
    OutcomeList::from_vec(outcomes)
}

fn fail_each(outcomes: &mut [Outcome])
    ensures { outcomes.new ≡ map by_sink outcomes.old }
{
    let reason = sink_failure();
    for at in 0..outcomes.len() {
        outcomes[at] = after_sink(outcomes[at], reason);
    }
}

fn after_sink(outcome: Outcome, reason: Reason) -> Outcome
    requires { reason ≡ sink_reason }
    ensures { result ≡ by_sink outcome }
{
    match outcome {
        Outcome::Successful => Outcome::Failed(reason),
        Outcome::Failed(why) => Outcome::Failed(why),
    }
}

/// The reason of a message whose text a sink did not take.
fn sink_failure() -> Reason
    ensures { result ≡ sink_reason }
{
    match Reason::new(b"sink") {
        Some(reason) => reason,
        None => unreachable!(),
    }
}
