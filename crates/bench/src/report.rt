// The lines that are printed.
use crate::grid::{Grid, Kind};
use crate::rows::{in_turn, joint_rows};
use crate::trial::{Trial, accepted, nanos};
use anyhow::Context;
use book::Book;
use engine::Case;
use std::alloc::Global;
use std::fmt;
use weighing::Cost;

impl fmt::Display for Kind {
    fn fmt<W: fmt::Write>(&self, f: &mut fmt::Formatter<W>) -> fmt::Result {
        f.write_str(match self {
            Kind::Path => "path",
            Kind::Star => "star",
            Kind::Ring => "ring",
            Kind::Wide => "wide",
        })
    }
}

// What the columns are: microseconds for each question, and nanoseconds for each joint row of the total.
pub(crate) fn heading(rt: &HostRuntime) -> anyhow::Result<()> {
    println!(rt;
        "kind locks holders joins joint-rows total-us table-us lock-us assign-us ns-per-row"
    )?;
    Ok(())
}

// A case of a book with the order in turn.
fn ordered(alloc: Global, grid: Grid) -> anyhow::Result<Case<Grid>> {
    let joins = in_turn(alloc, grid.tables())?;
    let mut case = Case::new(grid);
    accepted(case.order(joins.as_slice()))?;
    Ok(case)
}

// Measures one book and prints its line.
pub(crate) fn line(rt: &HostRuntime, trial: Trial) -> anyhow::Result<()> {
    let Trial {
        kind,
        locks,
        holders,
    } = trial;
    let grid = Grid::new(trial).context("no such book")?;
    let rows = joint_rows(&grid);
    let joins = grid.tables().saturating_sub(1);
    let case = ordered(rt.alloc(), grid)?;
    let mut cells = vec![in rt.alloc(); 0u32; accepted(case.cells_needed())?]?;
    let mut sheet = vec![in rt.alloc(); 0u32; 65536]?;
    let mut found = [0; 64];
    let total = nanos(rt, || case.total::<Cost>(cells.as_mut_slice()).map(|_| ()))?;
    let table = nanos(rt, || {
        case.table_sheet::<Cost>(0, cells.as_mut_slice(), sheet.as_mut_slice())
    })?;
    let lock = nanos(rt, || {
        case.lock_sheet::<Cost>(0, cells.as_mut_slice(), sheet.as_mut_slice())
    })?;
    let assignment = nanos(
        rt,
        || case.assignment::<Cost>(cells.as_mut_slice(), &mut found),
    )?;
    print!(rt; "{kind} {locks} {holders} {joins} {rows}")?;
    print!(rt; " {} {} {}", total / 1000, table / 1000, lock / 1000)?;
    let each = (total as u128)
        .checked_mul(100)
        .unwrap_or(0)
        .checked_div(rows as u128)
        .unwrap_or(0);
    println!(rt; " {} {}.{:02}", assignment / 1000, each / 100, each % 100)?;
    Ok(())
}
