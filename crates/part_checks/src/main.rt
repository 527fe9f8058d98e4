//! The worked examples of the parts that a core is made of.
//!
//! Standard input lists the cases, with an empty line between two. A case has a title in its first line; in its second line
//! the part, and how the part begins; and behind these the acts on it, as words. It is answered by its title, and behind that
//! by what its acts answer. An act that the part does not allow is not done, and answered by `not-allowed`.
#![tactic(auto)]

mod acks;
mod batches;
mod buffers;
mod children;
mod demands;
mod dispatchers;
mod restarts;
mod rooms;
mod subs;
mod words;

use std::alloc::AllocError;
use std::io;
use told_text::Told;
use words::{Case, case_of};

fn main(rt: HostRuntime) -> io::Result<()> {
    let text = io::read_to_string(rt.alloc(), rt.reader())?;
    let mut told = Told::new(rt.alloc());
    for case in text.split("\n\n") {
        run_case(&mut told, &case_of(case))?;
    }
    told.print(&rt)
}

fn run_case(told: &mut Told, case: &Case<'_>) -> Result<(), AllocError> {
    told.add(case.title);
    told.add(":");
    run_part(told, case)?;
    told.add("\n");
    Ok(())
}

/// Runs a case of a part that stands alone.
fn run_part(told: &mut Told, case: &Case<'_>) -> Result<(), AllocError> {
    match case.part {
        "demand" => demands::run(told, case),
        "subs" => subs::run(told, case),
        "cancels" => subs::run_cancels(told, case),
        _ => return run_held(told, case),
    }
    Ok(())
}

/// Runs a case of a part for which memory may be wanting.
fn run_held(told: &mut Told, case: &Case<'_>) -> Result<(), AllocError> {
    match case.part {
        "buffer" => buffers::run(told, case),
        "restarts" => restarts::run(told, case),
        "children" => children::run(told, case),
        "batches" => batches::run(told, case),
        "legs" => acks::run_legs(told, case),
        "verdicts" => acks::run_verdicts(told, case),
        _ => run_sends(told, case),
    }
}

/// Runs a case of a dispatcher.
fn run_sends(told: &mut Told, case: &Case<'_>) -> Result<(), AllocError> {
    match case.part {
        "by_demand" => dispatchers::by_demand(told, case),
        "by_broadcast" => dispatchers::by_broadcast(told, case),
        "by_selected" => dispatchers::by_selected(told, case),
        "by_partition" => dispatchers::by_partition(told, case),
        "by_rule" => dispatchers::by_rule(told, case),
        "keys" => {
            dispatchers::keys(told, case);
            Ok(())
        }
        _ => {
            told.add(" no such part");
            Ok(())
        }
    }
}
