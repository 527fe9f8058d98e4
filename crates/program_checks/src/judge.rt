//! What is wrong with a run of a made case, by its texts.

use super::case::Case;
use super::texts::{lines_with, piece_at, sum_of};
use std::alloc::{AllocError, Global};

/// More messages than a made case has.
const MOST_NUMBERS: usize = 1_000;

/// What a run with all its texts came to: the output and the error output, what the sinks hold, the live one too where the
/// words name it, the status, whether all came home, and how many steps the journal has.
#[derive(Clone, Copy)]
pub struct Came<'a> {
    pub out: &'a str,
    pub err: &'a str,
    pub s: &'a str,
    pub t: &'a str,
    pub live: Option<&'a str>,
    pub status: u8,
    pub home: bool,
    pub steps: usize,
}

/// The output in its three parts. That of the acknowledgements begins with the number of steps, and that of the report with the
/// number of accepted messages.
#[derive(Clone, Copy)]
pub struct Told<'a> {
    pub journal: &'a str,
    pub acks: &'a str,
    pub report: &'a str,
}

/// The parts of an output, if it has them.
pub fn parts_of(out: &str) -> Option<Told<'_>> {
    let (journal, rest) = out.split_once("\nend ")?;
    let (acks, report) = rest.split_once("accepted ")?;
    Some(Told {
        journal,
        acks,
        report,
    })
}

/// The acknowledgements of an output, which stand behind the journal, where it has one, and before the report.
pub fn acks_in(out: &str) -> &str {
    let (front, _) = out.split_once("accepted ").unwrap_or((out, ""));
    match front.split_once("\nend ") {
        Some((_, behind)) => behind.split_once('\n').unwrap_or((behind, "")).1,
        None => front,
    }
}

/// What a run came to by its report.
#[derive(Clone, Copy)]
pub struct Counts {
    pub accepted: usize,
    pub successful: usize,
    pub failed: usize,
    pub lost: usize,
    pub killed: usize,
    pub overflows: usize,
    pub restarts: usize,
    pub refused: usize,
    pub faults: usize,
    pub halts: usize,
}

pub fn counts_of(report: &str) -> Counts {
    Counts {
        accepted: first_number(report),
        successful: sum_of(report, "successful ", 1),
        failed: sum_of(report, "failed ", 1),
        lost: sum_of(report, "lost ", 1),
        killed: sum_of(report, "killed ", 2),
        overflows: sum_of(report, "overflow ", 2),
        restarts: sum_of(report, "restarts ", 1),
        refused: sum_of(report, "refused ", 1),
        faults: lines_with(report, "source "),
        halts: lines_with(report, "end halt"),
    }
}

/// The number that the first line is, or 0.
fn first_number(text: &str) -> usize {
    piece_at(text, '\n', 0).parse::<usize>().unwrap_or(0)
}

/// The status that the counts give a run.
fn status_of(counts: Counts) -> u8 {
    if counts.faults > 0 {
        4
    } else if counts.halts > 0 {
        3
    } else if counts.lost > 0 {
        2
    } else if counts.failed > 0 {
        1
    } else {
        0
    }
}

/// What is wrong with the status, the error output and the live sink, or nothing. The live sink holds the acknowledgements. Where it
/// failed, it holds less than that.
fn fault_in_status(case: &Case, came: Came<'_>, counts: Counts) -> &'static str {
    let acks = acks_in(came.out);
    match came.live {
        Some(live) if live != acks => fault_in_unfed(case, came, live, acks),
        _ if came.status != status_of(counts) => "status",
        _ if came.err != "" => "error output",
        _ => "",
    }
}

/// What is wrong with a run whose live sink does not hold all acknowledgements, or nothing: the sink failed, what it holds is the
/// front of them, and the run says so.
fn fault_in_unfed(case: &Case, came: Came<'_>, live: &str, acks: &str) -> &'static str {
    if !case.text("l.acts").ends_with("fail") || !acks.starts_with(live) {
        "live acknowledgements"
    } else if came.status != 12 {
        "status with a failed live sink"
    } else if came.err != "feed mem:l\n" {
        "error output with a failed live sink"
    } else {
        ""
    }
}

/// How many messages the lists at this place of the acknowledgements have; each is marked by its number.
fn mark_all(acks: &str, place: usize, marks: &mut Vec<bool>) -> usize {
    let mut count: usize = 0;
    for line in acks.lines() {
        count = count.saturating_add(mark_list(piece_at(line, ' ', place), marks));
    }
    count
}

fn mark_list(list: &str, marks: &mut Vec<bool>) -> usize {
    let mut count: usize = 0;
    for number in list.split(',') {
        if let Ok(at) = number.parse::<usize>() {
            count = count.saturating_add(1);
            if at < marks.len() {
                marks[at] = true;
            }
        }
    }
    count
}

/// How many numbers are marked.
fn marked(marks: &Vec<bool>) -> usize {
    let mut count: usize = 0;
    for mark in marks {
        if *mark {
            count = count.saturating_add(1);
        }
    }
    count
}

/// What does not hold of these, or nothing: each message has one end and is acknowledged once or lost.
pub fn fault_in_ends(
    alloc: Global,
    told: Told<'_>,
    counts: Counts,
) -> Result<&'static str, AllocError> {
    let mut marks = vec![in alloc; false; MOST_NUMBERS]?;
    let successful = mark_all(told.acks, 3, &mut marks);
    let failed = mark_all(told.acks, 5, &mut marks);
    let acknowledged = counts.successful.saturating_add(counts.failed);
    if acknowledged.saturating_add(counts.lost) != counts.accepted {
        Ok("ends")
    } else if successful != counts.successful || failed != counts.failed {
        Ok("acknowledgements")
    } else if marked(&marks) != acknowledged {
        Ok("acknowledged numbers")
    } else {
        Ok("")
    }
}

/// What does not stand where it came from, or nothing: each failure, each loss, each restart, each refused line and the halt.
fn fault_in_causes(told: Told<'_>, counts: Counts) -> &'static str {
    if sum_of(told.report, "reason ", 2) != counts.failed {
        "reasons"
    } else if counts.killed.saturating_add(counts.overflows) != counts.lost {
        "losses"
    } else if lines_with(told.journal, "restart ") != counts.restarts {
        "restarts"
    } else if lines_with(told.journal, "refuse ") != counts.refused {
        "refused lines"
    } else if lines_with(told.journal, "halt") != counts.halts {
        "halts"
    } else {
        ""
    }
}

/// What does not hold of a run without crashes and control, or nothing: each job has its answer, and there is one drain.
fn fault_in_answers(journal: &str) -> &'static str {
    let fetched = lines_with(journal, "accept ")
        .saturating_add(lines_with(journal, "quiet "))
        .saturating_add(lines_with(journal, "source "));
    let taken = lines_with(journal, "done ").saturating_add(lines_with(journal, "wrote "));
    if fetched != lines_with(journal, "fetch ") {
        "fetches"
    } else if taken != lines_with(journal, "take ") {
        "takes"
    } else if lines_with(journal, "childend ") != lines_with(journal, "child ") {
        "children"
    } else if lines_with(journal, "drain ") != 1 {
        "drains"
    } else if interventions(journal) > 0 {
        "crashes and control"
    } else {
        ""
    }
}

/// How many steps there are of crashes and control.
fn interventions(journal: &str) -> usize {
    lines_with(journal, "kill ")
        .saturating_add(lines_with(journal, "late "))
        .saturating_add(lines_with(journal, "restart "))
        .saturating_add(lines_with(journal, "halt"))
        .saturating_add(lines_with(journal, "refuse "))
}

/// How many lines of the sources of the topology begin so.
fn lines_in(case: &Case, word: &str) -> usize {
    let second = lines_under(case, "mem:b", "b", word);
    let third = lines_under(case, "mem:c", "c", word);
    let fourth = lines_under(case, "mem:d", "d", word);
    lines_with(case.text("a"), word)
        .saturating_add(second)
        .saturating_add(third)
        .saturating_add(fourth)
}

/// How many lines of the source of this name begin so, where the topology has it.
fn lines_under(case: &Case, source: &str, lines: &str, word: &str) -> usize {
    if case.text("file").contains(source) {
        lines_with(case.text(lines), word)
    } else {
        0
    }
}

/// How often each line that is successful stands in the sinks, where that is known beforehand: not of sinks that fail.
fn copies_of(case: &Case) -> Option<usize> {
    if case.text("torn").is_empty() {
        case.text("copies").parse::<usize>().ok()
    } else {
        None
    }
}

/// What does not hold of these, or nothing: all lines are accepted where every source came to its end, and the sinks hold
/// what was written.
fn fault_in_lines(case: &Case, came: Came<'_>, told: Told<'_>, counts: Counts) -> &'static str {
    let whole = counts.faults == 0 && told.report.ends_with("\nend sources\n");
    let written = came.s.len().saturating_add(came.t.len());
    let lines = lines_with(came.s, "").saturating_add(lines_with(came.t, ""));
    let copies = copies_of(case);
    if whole && counts.accepted != lines_in(case, "") {
        "accepted lines"
    } else if sum_of(told.journal, "wrote ", 2) != written {
        "written bytes"
    } else {
        match copies {
            Some(copies) if lines != counts.successful.saturating_mul(copies) => "written lines",
            _ => "",
        }
    }
}

/// What does not hold of a run without crashes and control in which every line is its key, or nothing: each line is successful,
/// and each sink holds as many lines as there are that begin with what its case tells.
fn fault_in_picks(case: &Case, came: Came<'_>, counts: Counts) -> &'static str {
    let s = lines_in(case, case.text("s.picks"));
    let t = lines_in(case, case.text("t.picks"));
    if case.text("picked").is_empty() {
        ""
    } else if counts.successful != lines_in(case, "") {
        "successful lines"
    } else if lines_with(came.s, "") != s || lines_with(came.t, "") != t {
        "picked lines"
    } else {
        ""
    }
}

/// What is wrong with the counts and the texts of a run, or nothing. A calm run has no crashes and no control.
pub fn fault_in_texts(
    calm: bool,
    case: &Case,
    came: Came<'_>,
    told: Told<'_>,
    counts: Counts,
) -> &'static str {
    let status = fault_in_status(case, came, counts);
    let causes = fault_in_causes(told, counts);
    if !came.home {
        "what comes home"
    } else if status != "" {
        status
    } else if first_number(told.acks) != came.steps {
        "number of steps"
    } else if causes != "" {
        causes
    } else if calm {
        fault_in_calm(case, came, told, counts)
    } else {
        fault_in_picks(case, came, counts)
    }
}

fn fault_in_calm(case: &Case, came: Came<'_>, told: Told<'_>, counts: Counts) -> &'static str {
    let answers = fault_in_answers(told.journal);
    if answers != "" {
        answers
    } else if counts.killed > 0 {
        "killed messages"
    } else {
        fault_in_lines(case, came, told, counts)
    }
}
