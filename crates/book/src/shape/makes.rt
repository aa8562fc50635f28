ghost use Rattle.std.specs.Prelude.{◌≡◌, ◌<◌, ◌↔◌, false, IsTrue, MatchOption};
ghost use Rattle.book.specs.Scopes.{named};
ghost use Rattle.book.specs.Shapes.{Fit, Numbers};
ghost use Rattle.book.specs.BookShapes.{Empty, OneMore, ShapeOf};

use super::BookShape;
use crate::scope::is_below;
use crate::{Book, Scope};

impl BookShape {
    // Asks a book for all of its shape.
    pub fn of<B: Book>(book: &B) -> BookShape
        ensures { ShapeOf (B.Book.meaning book.now) result }
    {
        let mut scopes = [Scope::none(); 64];
        for (t, scope) in scopes.iter_mut().enumerate() {
            *scope = book.scope(t);
        }
        BookShape {
            locks: book.locks(),
            holders: book.holders(),
            tables: book.tables(),
            scopes,
        }
    }

    // No tables yet, where a book can have so many locks and holders.
    pub fn new(locks: usize, holders: usize) -> Option<BookShape>
        ensures { MatchOption result (Numbers locks holders → ⊥) (λ s. Empty locks holders s) }
    {
        if locks == 0 || locks > 64 || holders == 0 || holders > 16 {
            return None;
        }
        Some(BookShape {
            locks,
            holders,
            tables: 0,
            scopes: [Scope::none(); 64],
        })
    }

    // Adds a table over these locks, where there is room and they are fit, and answers whether it did.
    pub fn add(&mut self, scope: Scope) -> bool
        ensures value { IsTrue result ↔ ((self.old.tables < 64) × Fit self.old.locks (named scope)) }
        ensures added { IsTrue result → OneMore self.old self.new scope }
        ensures same { result ≡ false → self.new ≡ self.old }
    {
        if self.tables >= 64 || !fits(&scope, self.locks) {
            return false;
        }
        self.scopes[self.tables] = scope;
        self.tables += 1;
        true
    }
}

// Whether a scope can be a table's in a book with so many locks.
fn fits(scope: &Scope, locks: usize) -> bool
    ensures { IsTrue result ↔ Fit locks (named scope.now) }
{
    let named = scope.as_slice();
    0 < named.len() && named.len() <= 4 && is_below(locks, named)
}
