// A book that borrows is a book: a reference to a book answers as the book does.
use crate::{Book, Scope};
use weighing::Charge;

impl<'a, B: Book> Book for &'a B {
    ghost meaning = { λ b. B.Book.meaning b.now };

    ghost ranged = { λ b. B.Book.ranged b.now };

    fn locks(&self) -> usize {
        (**self).locks()
    }

    fn holders(&self) -> usize {
        (**self).holders()
    }

    fn tables(&self) -> usize {
        (**self).tables()
    }

    fn scope(&self, table: usize) -> Scope {
        (**self).scope(table)
    }

    fn charge(&self, table: usize, row: usize) -> Option<Charge> {
        (**self).charge(table, row)
    }
}
