ghost use Rattle.std.specs.Prelude.{◌≡◌, ◌<◌};
ghost use Rattle.book.specs.Scopes.{named};
ghost use Rattle.book.specs.Shapes.{Fit};
ghost use Rattle.book.specs.BookShapes.{shape_ranged};
ghost use Rattle.filing.specs.Shapes.{Grown};
ghost use Rattle.filing.specs.Written.{listed, written};

use super::WrittenBook;
use crate::RowRecord;
use book::{Book, BookShape, Scope};
use weighing::Charge;

impl<'a> WrittenBook<'a> {
    // A book of this shape, over this row list.
    pub(crate) fn new(shape: BookShape, rows: &'a [RowRecord]) -> WrittenBook<'a>
        ensures shape { result.shape ≡ shape }
        ensures rows { result.rows.now ≡ rows.now }
    {
        WrittenBook { rows, shape }
    }

    // One more table, over these locks: its rows are those that the list has under its number.
    pub(crate) fn add_table(&mut self, scope: Scope)
        requires room { (written self.old).tables < 64 }
        requires fit { Fit (written self.old).locks (named scope) }
        ensures value { Grown (written self.old) (written self.new) (named scope) (listed self.old.rows.now (written self.old).tables) }
        ensures same { self.new.rows.now ≡ self.old.rows.now }
    {
        // True, since what is required is what the shape tests.
        let _ = self.shape.add(scope);
    }
}

// The rule book hands the same four questions to its shape: a trait with one method and two impls would be longer.
impl<'a> Book for WrittenBook<'a> {
    ghost meaning = { written };

    ghost ranged = { λ b. shape_ranged b.shape (listed b.rows.now) };

    fn locks(&self) -> usize {
        self.shape.locks()
    }

    fn holders(&self) -> usize {
        self.shape.holders()
    }

    fn tables(&self) -> usize {
        self.shape.tables()
    }

    fn scope(&self, table: usize) -> Scope {
        self.shape.scope(table)
    }

    fn charge(&self, table: usize, row: usize) -> Option<Charge> {
        if !self.shape.has_row(table, row) {
            return None;
        }
        // A form that the project fixes: the lent records are gone through until one is of this table and row.
        for record in self.rows {
            if record.table == table && record.row == row {
                return Some(record.charge);
            }
        }
        None
    }
}
