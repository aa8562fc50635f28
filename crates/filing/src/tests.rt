// What four of the five books answer at and beyond every edge, over three locks and two holders; the fifth, the indexed
// one, hands every question on to the written one.
ghost use Rattle.std.specs.Prelude.{◌≡◌};
ghost use Rattle.book.specs.Layers.{barred, bar_at, joined};

use crate::rule::{Rule, RuleForm};
use crate::{RowRecord, RuleBook, WrittenBook};
use book::{Barred, Book, BookShape, Joined, Scope, go_together};
use std::process::Abort;
use std::test::Fail;
use weighing::Charge;

// A record of a row, with a charge of 5 or, if that is to be free, of 0.
fn record(table: usize, row: usize, free: bool) -> RowRecord {
    let charge = if free {
        Charge::ZERO
    } else {
        Charge::new(5).unwrap_or(Charge::ZERO)
    };
    RowRecord { table, row, charge }
}

// Table 0 is over locks 0 and 1, table 1 over lock 2.
fn written(rows: &[RowRecord]) -> Result<WrittenBook<'_>, Fail> {
    let pair = Scope::of(&[0, 1]).ok_or("scope")?;
    let one = Scope::of(&[2]).ok_or("scope")?;
    let shape = BookShape::new(3, 2).ok_or("shape")?;
    let mut book = WrittenBook::new(shape, rows);
    book.add_table(pair);
    book.add_table(one);
    Ok(book)
}

// Locks 0 and 2 differ, at a charge of 3; locks 1 and 2 are the same, free of charge.
fn ruled() -> Result<RuleBook, Fail> {
    let differing = Scope::of(&[0, 2]).ok_or("scope")?;
    let alike = Scope::of(&[1, 2]).ok_or("scope")?;
    let three = Charge::new(3).ok_or("charge")?;
    let shape = BookShape::new(3, 2).ok_or("shape")?;
    let mut book = RuleBook::new(shape);
    book.add_rule(
        differing,
        Rule {
            form: RuleForm::Differ,
            charge: three,
        },
    );
    book.add_rule(
        alike,
        Rule {
            form: RuleForm::Same,
            charge: Charge::ZERO,
        },
    );
    Ok(book)
}

// The charge of a row as a number; 100 where the row is absent. No Option, since tests keep their expected values.
fn at<B: Book>(book: &B, table: usize, row: usize) -> u32 {
    book.charge(table, row).map_or(100, |charge| charge.value())
}

// Checks the rows (table, row number, charge or 100) and the widths of the first scopes.
fn check_rows<B: Book>(rt: &impl Abort, book: &B, widths: &[usize], rows: &[(usize, usize, u32)]) {
    assert_eq!(rt; book.locks(), 3);
    assert_eq!(rt; book.holders(), 2);
    for (table, width) in widths.iter().enumerate() {
        assert_eq!(rt; book.scope(table).len(), *width);
    }
    for &(table, row, charge) in rows {
        assert_eq!(rt; at(book, table, row), charge);
    }
}

// Layers over any two books, one of them borrowed: what stands on top answers by the meanings below.
fn charge_through<A: Book, B: Book>(
    book: &Barred<Joined<&A, Barred<B>>>,
    table: usize,
    row: usize,
) -> Option<Charge>
    ensures { result ≡ (barred (bar_at book.now.bars) (joined (A.Book.meaning book.now.book.first.now) (barred (bar_at book.now.book.second.bars) (B.Book.meaning book.now.book.second.book)))).charge table row }
{
    book.charge(table, row)
}

// The first record of a row counts; records beyond a table's rows or the tables are no rows.
#[test]
fn edges_of_a_written_book(rt: HostRuntime) -> Result<(), Fail> {
    let rows = [
        record(0, 1, false),
        record(1, 0, true),
        record(0, 1, true),
        record(0, 4, false),
        record(2, 0, false),
    ];
    let book = written(&rows)?;
    assert_eq!(rt; book.tables(), 2);
    check_rows(
        &rt,
        &book,
        &[2, 1, 0],
        &[
            (0, 0, 100),
            (0, 1, 5),
            (0, 3, 100),
            (0, 4, 100),
            (1, 0, 0),
            (1, 1, 100),
            (1, 2, 100),
            (2, 0, 100),
        ],
    );
    Ok(())
}

#[test]
fn edges_of_a_rule_book(rt: HostRuntime) -> Result<(), Fail> {
    let book = ruled()?;
    assert_eq!(rt; book.tables(), 2);
    check_rows(
        &rt,
        &book,
        &[2, 2, 0],
        &[(0, 0, 100), (0, 1, 3), (0, 2, 3), (0, 3, 100), (0, 5, 100)],
    );
    check_rows(
        &rt,
        &book,
        &[],
        &[
            (1, 0, 0),
            (1, 1, 100),
            (1, 2, 100),
            (1, 3, 0),
            (1, 4, 100),
            (2, 0, 100),
        ],
    );
    Ok(())
}

// Two books that do not go together mean the first.
#[test]
fn edges_of_a_joined_book(rt: HostRuntime) -> Result<(), Fail> {
    let rows = [record(0, 1, false), record(1, 0, true)];
    let book = Joined {
        first: written(&rows)?,
        second: ruled()?,
    };
    assert!(rt; go_together(&book.first, &book.second).is_ok());
    assert_eq!(rt; book.tables(), 4);
    check_rows(
        &rt,
        &book,
        &[2, 1, 2, 2, 0],
        &[
            (0, 1, 5),
            (1, 0, 0),
            (1, 2, 100),
            (2, 0, 100),
            (2, 1, 3),
            (3, 0, 0),
            (3, 1, 100),
            (3, 4, 100),
            (4, 0, 100),
        ],
    );
    let apart = Joined {
        first: &book.first,
        second: RuleBook::new(BookShape::new(3, 3).ok_or("shape")?),
    };
    let refusal = go_together(apart.first, &apart.second)
        .err()
        .ok_or("three holders")?;
    assert!(rt; refusal.number() == 8 && refusal.place() == 0);
    assert_eq!(rt; apart.tables(), 2);
    Ok(())
}

// Lock 0 is barred to holder 1 above, lock 2 to holder 0 in the second book only. Bars beyond the book, or beyond
// what bars are kept for, change no row.
#[test]
fn edges_of_a_barred_book(rt: HostRuntime) -> Result<(), Fail> {
    let rows = [record(0, 1, false), record(0, 2, false), record(1, 0, true)];
    let first = written(&rows)?;
    let mut second = Barred::new(ruled()?);
    assert!(rt; second.set(2, 0, true));
    let mut book = Barred::new(Joined {
        first: &first,
        second,
    });
    assert!(rt; book.set(0, 1, true) && !book.set(0, 1, true) && book.set(3, 0, true));
    assert!(rt;
        !book.set(64, 0, true)
            && !book.set(0, 16, true)
            && !book.is_barred(64, 0)
            && !book.is_barred(0, 16)
    );
    check_rows(
        &rt,
        &book,
        &[2, 1, 2, 2, 0],
        &[
            (0, 1, 5),
            (0, 2, 100),
            (1, 0, 0),
            (2, 1, 3),
            (2, 2, 100),
            (3, 0, 100),
            (3, 3, 0),
            (4, 0, 100),
        ],
    );
    assert!(rt; book.set(0, 1, false) && charge_through(&book, 0, 2).is_some());
    Ok(())
}
