// Books: who may hold which locks together, as tables of rows, and what they mean.
#![tactic(auto)]

ghost use Rattle.std.specs.Prelude.{◌≡◌};
ghost use Rattle.book.specs.Books.{Meaning, Ranged};
ghost use Rattle.book.specs.Scopes.{named};

use weighing::Charge;

mod barred;
mod joined;
mod laws;
mod lent;
mod refusal;
mod scope;
mod shape;

pub use barred::Barred;
pub use joined::{Joined, go_together};
pub use laws::{joined_tables, rows_barred, rows_numbered};
pub use refusal::{BookCause, Layer, LineCause, OrderCause, QuestionCause, RecordCause, Refusal};
pub use scope::Scope;
pub use shape::BookShape;

// A book (a network of table constraints) is anything that answers five questions: how many locks (variables),
// holders (values) and tables (constraints) there are, which locks a table is about, and what a row (a tuple
// of a table) is charged, if it is permitted at all. Its meaning is the answers.
pub trait Book {
    ghost meaning: { Self → Meaning };

    ghost ranged: { (b : Self) → Ranged (meaning b) };

    fn locks(&self) -> usize
        ensures { result ≡ (meaning self.now).locks };

    fn holders(&self) -> usize
        ensures { result ≡ (meaning self.now).holders };

    fn tables(&self) -> usize
        ensures { result ≡ (meaning self.now).tables };

    // The locks that a table is about, rising; none outside the book.
    fn scope(&self, table: usize) -> Scope
        ensures { named result ≡ (meaning self.now).scope table };

    // The charge of a row, or its absence.
    fn charge(&self, table: usize, row: usize) -> Option<Charge>
        ensures { result ≡ (meaning self.now).charge table row };
}
