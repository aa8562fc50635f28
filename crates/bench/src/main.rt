// A benchmark of the engine: how long each question takes, on books by formula of four kinds.
#![tactic(auto)]

use crate::grid::Kind;
use crate::trial::Trial;
use std::{env, io};

mod grid;
mod report;
mod rows;
mod trial;

// A book to measure on; the fields stand in a row here so that each book of the list below fills one line.
fn over(kind: Kind, locks: usize, holders: usize) -> Trial {
    Trial {
        kind,
        locks,
        holders,
    }
}

// First the joins grow, then the holders, then the locks of a join.
fn trials() -> [Trial; 15] {
    [
        over(Kind::Path, 8, 8),
        over(Kind::Path, 16, 8),
        over(Kind::Path, 32, 8),
        over(Kind::Path, 64, 8),
        over(Kind::Path, 64, 16),
        over(Kind::Star, 16, 8),
        over(Kind::Star, 64, 16),
        over(Kind::Ring, 16, 4),
        over(Kind::Ring, 16, 8),
        over(Kind::Ring, 16, 16),
        over(Kind::Ring, 64, 16),
        over(Kind::Wide, 6, 4),
        over(Kind::Wide, 6, 8),
        over(Kind::Wide, 6, 12),
        over(Kind::Wide, 64, 8),
    ]
}

// Whether the first argument asks for the measurements.
fn asked(rt: &HostRuntime) -> io::Result<bool> {
    Ok(
        env::args(rt)?
            .nth(1)
            .is_some_and(|word| word.as_str() == "run"),
    )
}

// Measures each book, or says how to.
fn run(rt: &HostRuntime) -> anyhow::Result<()> {
    if !asked(rt)? {
        println!(rt; "Measures the engine's questions under cost on books by formula.")?;
        println!(rt; "Run it with the argument run: it prints a line for each book.")?;
        return Ok(());
    }
    report::heading(rt)?;
    for trial in trials() {
        report::line(rt, trial)?;
    }
    Ok(())
}

fn main(rt: HostRuntime) -> anyhow::Result<()> {
    run(&rt)
}
