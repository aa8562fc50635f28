// How much work an order is: the tables are joined in turn, the first two and then each result with the next table.
use crate::grid::Grid;
use aggregation::Join;
use book::Book;
use std::alloc::{AllocError, Global};

// The joins of so many tables in turn.
pub(crate) fn in_turn(alloc: Global, tables: usize) -> Result<Vec<Join>, AllocError> {
    let mut joins = Vec::new(alloc);
    for right in 1..tables {
        let left = if right == 1 {
            0
        } else {
            tables.saturating_add(right - 2)
        };
        joins.push(Join { left, right })?;
    }
    Ok(joins)
}

// The first and the last table that has a lock.
#[derive(Clone, Copy)]
struct Span {
    first: usize,
    last: usize,
}

// The spans of all locks; one that no table has begins after the last table.
// Not an Option per lock: from 64 and 0 the least and the greatest table need no first case.
fn spans(grid: &Grid) -> [Span; 64] {
    let mut spans = [Span { first: 64, last: 0 }; 64];
    for table in 0..grid.tables() {
        let scope = grid.scope(table);
        for lock in scope.as_slice() {
            let span = &mut spans[*lock];
            span.first = span.first.min(table);
            span.last = table;
        }
    }
    spans
}

// How many rows the join of what came before with a table has: it is over the locks of that table and those before it
// that a later table has too, and the first join over all locks of both its tables.
fn rows_at(spans: &[Span; 64], holders: usize, table: usize) -> usize {
    spans
        .iter()
        .filter(|span| span.first <= table && (span.last >= table || table == 1))
        .fold(1usize, |rows, _| rows.saturating_mul(holders))
}

// How many joint rows all joins have together.
pub(crate) fn joint_rows(grid: &Grid) -> usize {
    let spans = spans(grid);
    (1..grid.tables())
        .map(|table| rows_at(&spans, grid.holders(), table))
        .fold(0usize, |rows, more| rows.saturating_add(more))
}
