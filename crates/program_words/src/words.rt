//! Which command the words are.

ghost use Rattle.std.specs.Prelude.{◌≡◌, ◌==◌, ◌||◌, ◌&&◌, IfOk, false, option_and_then, option_map, slice_index, bytes_eq, decimal};
ghost use Rattle.clap.specs.{Words.{app_of, found_of, rows_of, rule_of, subcommand_rows_of}, Takes.{is_given}};
ghost use Rattle.pipe_types.specs.Sound.{is_between};
ghost use Rattle.program_words.specs.Words.{command_of, texts_of, seen_as, flow_of, taken_of, named_in, check_in, upgrade_in, run_in, gen_in, audit_in, workers_in, workers_of, live_in, sink_of, number_in as number_in_of, number_at as number_at_of, grammar, check_grammar, run_grammar, gen_grammar, upgrade_grammar, audit_grammar, flag_rule, word_rule};

use clap::error::ErrorKind;
use clap::parser::ValueSource;
use clap::{Arg, ArgAction, ArgMatches};
use itoa::Buffer;
use std::alloc::{AllocError, Global};

/// As many workers as a run may have.
const MOST_WORKERS: u16 = 16;

/// As many records as may be generated.
const MOST_RECORDS: u32 = 2_000_000;

/// `flow SOURCE PREFIX`: the name of a source, and what each line is to begin with.
#[derive(Clone, Copy, Drop)]
pub struct FlowWords<'a> {
    pub source: &'a str,
    pub prefix: &'a str,
}

/// `run TOPOLOGY [--workers N] [--acks] [--steps] [--live SINK]`: the name of a topology file, how many workers are to run it,
/// from 1 to 16, whether its acknowledgements and its steps are to be written before the report, and the name of the sink that
/// is to have the acknowledgements while it runs, if there is one.
#[derive(Clone, Copy, Drop)]
pub struct RunWords<'a> {
    pub topology: &'a str,
    pub workers: u16,
    pub acks: bool,
    pub steps: bool,
    pub live: Option<&'a str>,
}

/// `gen SEED COUNT TOPOLOGY`: the seed of the records, how many there are to be, from 1 to 2,000,000, and the name of a
/// topology file.
#[derive(Clone, Copy, Drop)]
pub struct GenWords<'a> {
    pub seed: u32,
    pub count: u32,
    pub topology: &'a str,
}

/// `audit JOURNAL TOPOLOGY`: the name of a source that holds a journal, and that of a topology file.
#[derive(Clone, Copy, Drop)]
pub struct AuditWords<'a> {
    pub journal: &'a str,
    pub topology: &'a str,
}

/// A command of the program.
#[derive(Clone, Copy, Drop)]
pub enum Command<'a> {
    Flow(FlowWords<'a>),
    /// `check TOPOLOGY`: the name of a topology file.
    Check(&'a str),
    Run(RunWords<'a>),
    Gen(GenWords<'a>),
    /// `upgrade TOPOLOGY`: the name of a topology file.
    Upgrade(&'a str),
    Audit(AuditWords<'a>),
}

/// The command, and none where the words are no command. The words come without the program's name. The error is want
/// of memory.
pub fn read_words(alloc: Global, words: &[String]) -> Result<Option<Command<'_>>, AllocError>
    ensures { IfOk result (λ command. seen_as command ≡ command_of (texts_of words.now)) }
{
    match words {
        [] => Ok(None),
        [word, others @ ..] if word.as_str() == "flow" => Ok(flow_command(others)),
        _ => taken_command(alloc, words),
    }
}

/// The words after `flow`, which are taken as they stand.
fn flow_command(words: &[String]) -> Option<Command<'_>>
    ensures { seen_as result ≡ flow_of (texts_of words.now) }
{
    match words {
        [source, prefix] => Some(Command::Flow(FlowWords {
            source: source.as_str(),
            prefix: prefix.as_str(),
        })),
        _ => None,
    }
}

/// What clap takes of the words.
fn taken_command<'a>(alloc: Global, words: &'a [String]) -> Result<Option<Command<'a>>, AllocError>
    ensures { IfOk result (λ command. seen_as command ≡ taken_of (texts_of words.now)) }
{
    match clap_program(alloc)?.try_get_matches_from(words) {
        Ok(matches) => Ok(matched_command(&matches)),
        Err(error) => match error.kind() {
            ErrorKind::OutOfMemory => Err(AllocError),
            _ => Ok(None),
        },
    }
}

/// The command that the matches name.
fn matched_command<'a>(matches: &ArgMatches<'a>) -> Option<Command<'a>>
    ensures { seen_as result ≡ option_and_then named_in (subcommand_rows_of matches.now) }
{
    let (name, found) = matches.subcommand()?;
    match name {
        "check" => check_words(found),
        "run" => run_words(found),
        "gen" => gen_words(found),
        "upgrade" => upgrade_words(found),
        "audit" => audit_words(found),
        _ => None,
    }
}

fn check_words<'a>(matches: &ArgMatches<'a>) -> Option<Command<'a>>
    ensures { seen_as result ≡ check_in (rows_of (found_of matches.now)) }
{
    Some(Command::Check(matches.get_str("topology")?))
}

fn upgrade_words<'a>(matches: &ArgMatches<'a>) -> Option<Command<'a>>
    ensures { seen_as result ≡ upgrade_in (rows_of (found_of matches.now)) }
{
    Some(Command::Upgrade(matches.get_str("topology")?))
}

fn audit_words<'a>(matches: &ArgMatches<'a>) -> Option<Command<'a>>
    ensures { seen_as result ≡ audit_in (rows_of (found_of matches.now)) }
{
    Some(Command::Audit(AuditWords {
        journal: matches.get_str("journal")?,
        topology: matches.get_str("topology")?,
    }))
}

fn run_words<'a>(matches: &ArgMatches<'a>) -> Option<Command<'a>>
    ensures { seen_as result ≡ run_in (rows_of (found_of matches.now)) }
{
    Some(Command::Run(RunWords {
        topology: matches.get_str("topology")?,
        workers: workers(matches)?,
        acks: has_option(matches, "acks"),
        steps: has_option(matches, "steps"),
        live: live(matches)?,
    }))
}

fn gen_words<'a>(matches: &ArgMatches<'a>) -> Option<Command<'a>>
    ensures { seen_as result ≡ gen_in (rows_of (found_of matches.now)) }
{
    Some(Command::Gen(GenWords {
        seed: number_at(matches, "seed", 0, u32::MAX)?,
        count: number_at(matches, "count", 1, MOST_RECORDS)?,
        topology: matches.get_str("topology")?,
    }))
}

/// The number from `low` to `high` that the word of this name spells.
fn number_at(matches: &ArgMatches<'_>, name: &str, low: u32, high: u32) -> Option<u32>
    ensures { result ≡ number_at_of name.now low high (rows_of (found_of matches.now)) }
{
    match matches.get_str(name) {
        Some(text) => number_in(low, high, text),
        None => None,
    }
}

/// The number from `low` to `high` that the text spells in decimal, without sign or leading zero.
fn number_in(low: u32, high: u32, text: &str) -> Option<u32>
    ensures { result ≡ number_in_of low high text.now }
{
    match text.parse::<u32>() {
        Ok(number) if is_spelled(low, high, number, text) => Some(number),
        _ => None,
    }
}

/// Whether the number is in the range and the text is how it is written.
fn is_spelled(low: u32, high: u32, number: u32, text: &str) -> bool
    ensures { result ≡ (is_between low high number && bytes_eq text.now (decimal number)) }
{
    low <= number && number <= high && text == Buffer::new().format(number)
}

/// The number of workers that the words ask for, 1 where they ask for none, and none where they spell no such number.
fn workers(matches: &ArgMatches<'_>) -> Option<u16>
    ensures { result ≡ workers_in (rows_of (found_of matches.now)) }
{
    match matches.get_str("workers") {
        Some(text) => spelled_workers(text),
        None => Some(1),
    }
}

/// The number from 1 to 16 that the text spells, without sign or leading zero.
fn spelled_workers(text: &str) -> Option<u16>
    ensures { result ≡ workers_of text.now }
{
    if begins_with_plus_or_zero(text) {
        return None;
    }
    match text.parse::<u16>() {
        Ok(workers) if workers <= MOST_WORKERS => Some(workers),
        _ => None,
    }
}

fn begins_with_plus_or_zero(text: &str) -> bool
    ensures { result ≡ (slice_index text.now 0 == 43 || slice_index text.now 0 == 48) }
{
    match text.as_bytes() {
        [first, ..] => *first == b'+' || *first == b'0',
        [] => false,
    }
}

/// The sink that the words name for live acknowledgements, if they name one. Where its name is empty, the words are no command.
fn live<'a>(matches: &ArgMatches<'a>) -> Option<Option<&'a str>>
    ensures { option_map (option_map (λ sink. sink.now)) result ≡ live_in (rows_of (found_of matches.now)) }
{
    match matches.get_str("live") {
        Some(text) => sink_name(text),
        None => Some(None),
    }
}

/// The sink of this name; an empty text is no name.
fn sink_name<'a>(text: &'a str) -> Option<Option<&'a str>>
    ensures { option_map (option_map (λ sink. sink.now)) result ≡ sink_of text.entry.now }
{
    if text.is_empty() {
        None
    } else {
        Some(Some(text))
    }
}

/// Whether the words give the option, which else has its default.
fn has_option(matches: &ArgMatches<'_>, name: &str) -> bool
    ensures { result ≡ is_given name.now (rows_of (found_of matches.now)) }
{
    matches.contains_id(name) && matches.value_source(name) != Some(ValueSource::DefaultValue)
}

/// What clap is to take. A call for help is no command.
fn clap_program<'a>(alloc: Global) -> Result<clap::Command<'a>, AllocError>
    ensures { IfOk result (λ command. app_of command ≡ grammar) }
{
    clap::Command::new(alloc, "wamiondry")
        .no_binary_name(true)
        .disable_help_flag(true)
        .disable_help_subcommand(true)
        .subcommand(check_command(alloc)?)?
        .subcommand(run_command(alloc)?)?
        .subcommand(gen_command(alloc)?)?
        .subcommand(upgrade_command(alloc)?)?
        .subcommand(audit_command(alloc)?)
}

fn check_command<'a>(alloc: Global) -> Result<clap::Command<'a>, AllocError>
    ensures { IfOk result (λ command. app_of command ≡ check_grammar) }
{
    clap::Command::new(alloc, "check").arg(word(alloc, "topology"))
}

fn upgrade_command<'a>(alloc: Global) -> Result<clap::Command<'a>, AllocError>
    ensures { IfOk result (λ command. app_of command ≡ upgrade_grammar) }
{
    clap::Command::new(alloc, "upgrade").arg(word(alloc, "topology"))
}

fn audit_command<'a>(alloc: Global) -> Result<clap::Command<'a>, AllocError>
    ensures { IfOk result (λ command. app_of command ≡ audit_grammar) }
{
    clap::Command::new(alloc, "audit")
        .arg(word(alloc, "journal"))?
        .arg(word(alloc, "topology"))
}

fn gen_command<'a>(alloc: Global) -> Result<clap::Command<'a>, AllocError>
    ensures { IfOk result (λ command. app_of command ≡ gen_grammar) }
{
    clap::Command::new(alloc, "gen")
        .arg(word(alloc, "seed"))?
        .arg(word(alloc, "count"))?
        .arg(word(alloc, "topology"))
}

fn run_command<'a>(alloc: Global) -> Result<clap::Command<'a>, AllocError>
    ensures { IfOk result (λ command. app_of command ≡ run_grammar) }
{
    let workers = Arg::new(alloc, "workers").long("workers");
    let live = Arg::new(alloc, "live").long("live");
    clap::Command::new(alloc, "run")
        .arg(word(alloc, "topology"))?
        .arg(workers)?
        .arg(flag(alloc, "acks"))?
        .arg(flag(alloc, "steps"))?
        .arg(live)
}

/// A word that has to be there.
fn word<'a>(alloc: Global, name: &'a str) -> Arg<'a>
    ensures rule { rule_of result ≡ word_rule name.entry.now }
    ensures local { result.global ≡ false }
{
    Arg::new(alloc, name).required(true)
}

/// An option that takes no value.
fn flag<'a>(alloc: Global, name: &'a str) -> Arg<'a>
    ensures rule { rule_of result ≡ flag_rule name.entry.now }
    ensures local { result.global ≡ false }
{
    Arg::new(alloc, name).long(name).action(ArgAction::SetTrue)
}
