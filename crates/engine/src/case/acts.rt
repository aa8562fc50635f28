// Making a case, and the calls that change how it stands.
ghost use Rattle.std.specs.Prelude.{◌≡◌, ℕ, true, false, None};
ghost use Rattle.book.specs.Layers.{bar_put, bar_changes};
ghost use Rattle.order.specs.Shapes.{shape_of};
ghost use Rattle.order.specs.Refusals.{order_refusal};
ghost use Rattle.engine.specs.Cases.{ordered};
ghost use Rattle.engine.specs.Views.{book_in, shape_now, bars_now, order_now};
ghost use Rattle.engine.specs.Questions.{answered, left_by, pair_refusal};

use super::Case;
use crate::framed::Framed;
use crate::refusals::listed;
use aggregation::Join;
use book::{Barred, Book, Refusal};
use order::check;

impl<B: Book + Drop> Case<B> {
    // A case of a book, with no bars and no order.
    pub fn new(book: B) -> Case<B>
        ensures book { book_in result ≡ book }
        ensures shape { shape_now result ≡ shape_of (B.Book.meaning book) }
        ensures bars { bars_now result ≡ (λ lock holder. false) }
        ensures order { order_now result ≡ None }
    {
        Case {
            book: Barred::new(Framed::of(book)),
            plan: None,
        }
    }

    // Sets the joins, in place of any earlier ones. A refused order leaves the case as it was.
    pub fn order(&mut self, joins: &[Join]) -> Result<(), Refusal>
        ensures value { result ≡ answered (order_refusal (shape_now self.old) joins.now) tt }
        ensures order { order_now self.new ≡ ordered (order_refusal (shape_now self.old) joins.now) joins.now (order_now self.old) }
        ensures bars { bars_now self.new ≡ bars_now self.old }
        ensures same { book_in self.new ≡ book_in self.old }
    {
        self.plan = Some(check(&self.book.book.shape, joins)?);
        Ok(())
    }

    // Bars a holder from a lock, and answers whether that changed anything.
    pub fn bar(&mut self, lock: usize, holder: usize) -> Result<bool, Refusal>
        ensures value { result ≡ answered (pair_refusal (shape_now self.old) lock holder) (bar_changes (bars_now self.old) lock holder true) }
        ensures bars { bars_now self.new ≡ left_by (pair_refusal (shape_now self.old) lock holder) (bar_put (bars_now self.old) lock holder true) (bars_now self.old) }
        ensures order { order_now self.new ≡ order_now self.old }
        ensures same { book_in self.new ≡ book_in self.old }
    {
        self.set_bar(lock, holder, true)
    }

    // Lifts a holder's bar from a lock, and answers whether that changed anything.
    pub fn lift(&mut self, lock: usize, holder: usize) -> Result<bool, Refusal>
        ensures value { result ≡ answered (pair_refusal (shape_now self.old) lock holder) (bar_changes (bars_now self.old) lock holder false) }
        ensures bars { bars_now self.new ≡ left_by (pair_refusal (shape_now self.old) lock holder) (bar_put (bars_now self.old) lock holder false) (bars_now self.old) }
        ensures order { order_now self.new ≡ order_now self.old }
        ensures same { book_in self.new ≡ book_in self.old }
    {
        self.set_bar(lock, holder, false)
    }

    // Sets whether a pair of the book is barred.
    fn set_bar(&mut self, lock: usize, holder: usize, barred: bool) -> Result<bool, Refusal>
        ensures value { result ≡ answered (pair_refusal (shape_now self.old) lock holder) (bar_changes (bars_now self.old) lock holder barred) }
        ensures bars { bars_now self.new ≡ left_by (pair_refusal (shape_now self.old) lock holder) (bar_put (bars_now self.old) lock holder barred) (bars_now self.old) }
        ensures order { order_now self.new ≡ order_now self.old }
        ensures same { book_in self.new ≡ book_in self.old }
    {
        listed(lock, self.book.locks())?;
        listed(holder, self.book.holders())?;
        Ok(self.book.set(lock, holder, barred))
    }
}
