// Tells whether a text on standard input can be filed as a case: how many rows it lists, or the first refusal.
#![tactic(auto)]

use book::Refusal;
use filing::{RowRecord, fill_rows};
use std::io::Read;
use weighing::Charge;

// How many rows a text may list.
const PLACES: usize = 4096;

fn print_answer(rt: &HostRuntime, answer: Result<usize, Refusal>) -> anyhow::Result<()> {
    match answer {
        Ok(rows) => println!(rt; "rows={rows}")?,
        Err(refusal) => println!(rt; "{refusal}")?,
    }
    Ok(())
}

fn run(rt: &HostRuntime) -> anyhow::Result<()> {
    let mut text = Vec::new(rt.alloc());
    let _ = rt.stdin().read_to_end(&mut text)?;
    let blank = RowRecord {
        table: 0,
        row: 0,
        charge: Charge::ZERO,
    };
    let mut rows = vec![in rt.alloc(); blank; PLACES]?;
    print_answer(rt, fill_rows(text.as_slice(), rows.as_mut_slice()))
}

fn main(rt: HostRuntime) -> anyhow::Result<()> {
    run(&rt)
}
