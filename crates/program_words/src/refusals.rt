//! What the program writes to the error output, and what `check` writes of a topology that it accepts.

ghost use Rattle.std.specs.Prelude.{◌≡◌, IfOk, codes, option_map, string_bytes, unwrap_or};
ghost use Rattle.program_words.specs.Refusals as text;

use pipe_types::bytes::Bytes;
use pipe_types::topology::Kind;
use std::alloc::{AllocError, Global};

/// The words of the program, where those that it was given are no command.
pub fn usage_line(alloc: Global) -> Result<Bytes, AllocError>
    ensures { IfOk result (λ line. line ≡ text.usage_line) }
{
    line_of(
        alloc,
        "usage: flow SOURCE PREFIX; check TOPOLOGY; run TOPOLOGY [--workers N] [--acks] [--steps] [--live SINK]; gen SEED COUNT TOPOLOGY; upgrade TOPOLOGY; audit JOURNAL TOPOLOGY\n",
    )
}

/// That memory was wanting.
pub fn memory_line(alloc: Global) -> Result<Bytes, AllocError>
    ensures { IfOk result (λ line. line ≡ text.memory_line) }
{
    line_of(alloc, "memory\n")
}

/// The name with which a call on the outside failed.
pub fn edge_line(alloc: Global, name: &str) -> Result<Bytes, AllocError>
    ensures { IfOk result (λ line. line ≡ text.edge_line name.now) }
{
    bytes_of(format!(in alloc; "edge {name}\n")?)
}

/// The name of the sink for live acknowledgements, which failed.
pub fn feed_line(alloc: Global, name: &str) -> Result<Bytes, AllocError>
    ensures { IfOk result (λ line. line ≡ text.feed_line name.now) }
{
    bytes_of(format!(in alloc; "feed {name}\n")?)
}

/// The kind of callback of which there are fewer boxes than stages need.
#[tactic(auto, using(std::proofs::lemmas::List::append_assoc))]
pub fn stock_line(alloc: Global, kind: Kind, need: usize, have: usize) -> Result<Bytes, AllocError>
    ensures { IfOk result (λ line. line ≡ text.stock_line kind need have) }
{
    let word = kind_word(kind);
    bytes_of(format!(in alloc; "stock {word} need {need} have {have}\n")?)
}

/// What is wrong with a topology: the number of the fault and the path at which it stands, `-` where it has none.
#[tactic(auto, using(std::proofs::lemmas::List::append_assoc))]
pub fn topology_line(alloc: Global, number: u8, path: Option<&str>) -> Result<Bytes, AllocError>
    ensures { IfOk result (λ line. line ≡ text.topology_line number (option_map (λ p. p.now) path.entry)) }
{
    let place = path_word(path);
    bytes_of(format!(in alloc; "topology {number} {place}\n")?)
}

/// How many stages and how many subscriptions a topology has.
#[tactic(auto, using(std::proofs::lemmas::List::append_assoc))]
pub fn counts_line(alloc: Global, stages: usize, subscriptions: usize) -> Result<Bytes, AllocError>
    ensures { IfOk result (λ line. line ≡ text.counts_line stages subscriptions) }
{
    bytes_of(format!(in alloc; "stages {stages} subscriptions {subscriptions}\n")?)
}

fn path_word<'a>(path: Option<&'a str>) -> &'a str
    ensures { result.now ≡ unwrap_or (option_map (λ p. p.now) path.entry) (codes "-") }
{
    match path {
        Some(path) => path,
        None => "-",
    }
}

fn kind_word(kind: Kind) -> &'static str
    ensures { result.now ≡ text.kind_word kind }
{
    match kind {
        Kind::Steps => "steps",
        Kind::Lines => "lines",
        Kind::Own => "own",
    }
}

fn line_of(alloc: Global, line: &str) -> Result<Bytes, AllocError>
    ensures { IfOk result (λ copy. copy ≡ line.now) }
{
    Ok(Bytes::from_vec(Vec::from_slice(alloc, line.as_bytes())?))
}

fn bytes_of(line: String) -> Result<Bytes, AllocError>
    ensures { IfOk result (λ bytes. bytes ≡ string_bytes line) }
{
    Ok(Bytes::from_vec(line.into_bytes()))
}
