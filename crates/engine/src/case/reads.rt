// How a case stands: its book, its bars and the order in force, for whoever writes it out.
ghost use Rattle.std.specs.Prelude.{◌≡◌};
ghost use Rattle.aggregation.specs.Orders.{join_at};
ghost use Rattle.engine.specs.Questions.{joins_in};
ghost use Rattle.engine.specs.Views.{book_in, bars_now, order_now, order_length};

use super::Case;
use aggregation::Join;
use book::Book;

impl<B: Book + Drop> Case<B> {
    // The book, without the bars.
    pub fn book(&self) -> &B
        ensures { result.now ≡ book_in self.now }
    {
        &self.book.book.book
    }

    // Whether a pair is barred.
    pub fn is_barred(&self, lock: usize, holder: usize) -> bool
        ensures { result ≡ bars_now self.now lock holder }
    {
        self.book.is_barred(lock, holder)
    }

    // How many joins the order in force has; nothing where none is.
    pub fn order_len(&self) -> Option<usize>
        ensures { result ≡ order_length (order_now self.now) }
    {
        self.plan.as_ref().map(|plan| plan.len())
    }

    // Join i of the order in force; beyond the last, and where none is, node 0 twice.
    pub fn join(&self, i: usize) -> Join
        ensures { result ≡ join_at (joins_in (order_now self.now)) i }
    {
        self.plan
            .as_ref()
            .map(|plan| plan.join(i))
            .unwrap_or_default()
    }
}
