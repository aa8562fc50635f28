// Two books in one: the tables of the first, then those of the second. Two books that do not go together mean the
// first alone; whether they do is a question of its own.
ghost use Rattle.std.specs.Prelude.{◌≡◌, MatchResult};
ghost use Rattle.book.specs.Layers.{Together, together, joined};
ghost use Rattle.book.specs.Refusals.{apart};
ghost use Rattle.book.specs.Ranges.{joined_ranged};

use crate::{Book, BookCause, Layer, Refusal, Scope};
use weighing::Charge;

#[derive(Drop)]
pub struct Joined<A, B> {
    pub first: A,
    pub second: B,
}

// Whether two books agree in locks and holders and have at most 64 tables in all.
fn agree<A: Book, B: Book>(first: &A, second: &B) -> bool
    ensures { result ≡ together (A.Book.meaning first.now) (B.Book.meaning second.now) }
{
    first.locks() == second.locks()
        && first.holders() == second.holders()
        && first.tables() + second.tables() <= 64
}

// Refuses two books that do not go together.
pub fn go_together<A: Book, B: Book>(first: &A, second: &B) -> Result<(), Refusal>
    ensures { MatchResult result (λ _. Together (A.Book.meaning first.now) (B.Book.meaning second.now)) (λ e. (Together (A.Book.meaning first.now) (B.Book.meaning second.now) → ⊥) × (e ≡ apart)) }
{
    if agree(first, second) {
        Ok(())
    } else {
        Err(Refusal {
            layer: Layer::Book {
                place: 0,
                cause: BookCause::Apart,
            },
        })
    }
}

impl<A: Book, B: Book> Book for Joined<A, B> {
    ghost meaning = { λ j. joined (A.Book.meaning j.first) (B.Book.meaning j.second) };

    ghost ranged = { λ j. joined_ranged (A.Book.meaning j.first) (B.Book.meaning j.second) (A.Book.ranged j.first) (B.Book.ranged j.second) };

    fn locks(&self) -> usize {
        self.first.locks()
    }

    fn holders(&self) -> usize {
        self.first.holders()
    }

    fn tables(&self) -> usize {
        if agree(&self.first, &self.second) {
            self.first.tables() + self.second.tables()
        } else {
            self.first.tables()
        }
    }

    fn scope(&self, table: usize) -> Scope {
        let first = self.first.tables();
        if table < first || !agree(&self.first, &self.second) {
            self.first.scope(table)
        } else {
            self.second.scope(table - first)
        }
    }

    fn charge(&self, table: usize, row: usize) -> Option<Charge> {
        let first = self.first.tables();
        if table < first || !agree(&self.first, &self.second) {
            self.first.charge(table, row)
        } else {
            self.second.charge(table - first, row)
        }
    }
}
