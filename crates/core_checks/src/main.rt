//! Runs of the core, as standard input lists them, and what each came to.
//!
//! A case is a topology file and lines of acts (`case.rt`, `acts.rt`), and a line `run`. Each step is made only where it may
//! come next: what handlers answered is judged by the slow machine, all else by the core's own test. What is wanted was
//! worked out by hand.
#![tactic(auto)]

mod acts;
mod answers;
mod case;
mod drive;
mod judge;
mod kills;
mod limits;
mod pasts;
mod sees;
mod steps;
mod tell;

use acts::run_case;
use case::Case;
use std::io;
use told_text::Told;

fn main(rt: HostRuntime) -> io::Result<()> {
    let mut told = Told::new(rt.alloc());
    let mut case = Case::new(rt.alloc());
    for line in rt.lines(rt.alloc()) {
        let line = line?;
        if line.as_str() == "run" {
            run_case(&mut told, &case)?;
            case.end();
        } else {
            case.read(line.as_str())?;
        }
    }
    told.print(&rt)
}
