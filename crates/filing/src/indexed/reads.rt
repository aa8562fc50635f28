ghost use Rattle.std.specs.Prelude.{◌≡◌};
ghost use Rattle.book.specs.BookShapes.{shape_ranged};
ghost use Rattle.filing.specs.Written.{listed};
ghost use Rattle.filing.specs.Indexed.{indexed};

use super::IndexedBook;
use crate::written::WrittenBook;
use book::{Book, Scope};
use weighing::Charge;

impl<'a> IndexedBook<'a> {
    // The indexed book of a written book.
    pub fn of(book: WrittenBook<'a>) -> IndexedBook<'a>
        ensures { result.book ≡ book.entry }
    {
        IndexedBook { book }
    }
}

// The five questions are handed on: callers keep this public type, and it has no index yet to ask instead.
impl<'a> Book for IndexedBook<'a> {
    ghost meaning = { indexed };

    ghost ranged = { λ b. shape_ranged b.book.shape (listed b.book.rows.now) };

    fn locks(&self) -> usize {
        self.book.locks()
    }

    fn holders(&self) -> usize {
        self.book.holders()
    }

    fn tables(&self) -> usize {
        self.book.tables()
    }

    fn scope(&self, table: usize) -> Scope {
        self.book.scope(table)
    }

    fn charge(&self, table: usize, row: usize) -> Option<Charge> {
        self.book.charge(table, row)
    }
}
