// A book with its shape, which is asked of it once: the questions ask for scopes and numbers at every row, and a book may
// be slow to tell.
ghost use Rattle.std.specs.Prelude.{◌≡◌, ℕ};
ghost use Rattle.book.specs.Shapes.{scope_at};

use book::{Book, BookShape, Scope};
use weighing::Charge;

#[derive(Drop)]
pub(crate) struct Framed<B: Book> {
    pub(crate) book: B,
    pub(crate) shape: BookShape,
    ghost same_locks: { shape.locks ≡ (B.meaning book).locks },
    ghost same_holders: { shape.holders ≡ (B.meaning book).holders },
    ghost same_tables: { shape.tables ≡ (B.meaning book).tables },
    ghost same_scopes: { (t : ℕ) → scope_at shape.scopes t ≡ (B.meaning book).scope t },
}

impl<B: Book + Drop> Framed<B> {
    // A book with its shape.
    pub(crate) fn of(book: B) -> Framed<B>
        ensures { result.book ≡ book }
    {
        let shape = BookShape::of(&book);
        Framed { book, shape }
    }
}

// It means what the book means: only who is asked differs.
impl<B: Book> Book for Framed<B> {
    ghost meaning = { λ f. B.Book.meaning f.book };

    ghost ranged = { λ f. B.Book.ranged f.book };

    fn locks(&self) -> usize {
        self.shape.locks()
    }

    fn holders(&self) -> usize {
        self.shape.holders()
    }

    fn tables(&self) -> usize {
        self.shape.tables()
    }

    fn scope(&self, table: usize) -> Scope {
        self.shape.scope(table)
    }

    fn charge(&self, table: usize, row: usize) -> Option<Charge> {
        self.book.charge(table, row)
    }
}
