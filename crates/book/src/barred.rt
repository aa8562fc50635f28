// A book with bars: a row that names a barred pair (lock, holder) is absent, and all else is as in the book below.
// Bars are kept for any pair that a book can have: 64 locks, 16 holders.
ghost use Rattle.std.specs.Prelude.{◌≡◌, ◌<◌, ◌≤◌, false, not, ◌&&◌, length, nat_lt, slice_index_or, slice_set};
ghost use Rattle.std.specs.Bool.{beq};
ghost use Rattle.book.specs.Scopes.{named};
ghost use Rattle.book.specs.Layers.{touches, barred, bar_at, bar_put, bar_changes};
ghost use Rattle.book.specs.Ranges.{barred_ranged};

use crate::{Book, Scope};
use weighing::Charge;

#[derive(Drop)]
pub struct Barred<B> {
    pub book: B,
    pub bars: [[bool; 16]; 64],
}

impl<B> Barred<B> {
    // The book with no bars.
    pub fn new(book: B) -> Barred<B>
        ensures same { result.book ≡ book }
        ensures value { bar_at result.bars ≡ (λ lock holder. false) }
    {
        Barred {
            book,
            bars: [[false; 16]; 64],
        }
    }

    // Whether a pair is barred; none is beyond those that bars are kept for.
    pub fn is_barred(&self, lock: usize, holder: usize) -> bool
        ensures { result ≡ bar_at self.now.bars lock holder }
    {
        bar(&self.bars, lock, holder)
    }

    // Bars a pair or lifts its bar, and answers whether that changed anything.
    pub fn set(&mut self, lock: usize, holder: usize, barred: bool) -> bool
        ensures value { result ≡ bar_changes (bar_at self.old.bars) lock holder barred }
        ensures after { bar_at self.new.bars ≡ bar_put (bar_at self.old.bars) lock holder barred }
        ensures same { self.new.book ≡ self.old.book }
    {
        set_bar(&mut self.bars, lock, holder, barred)
    }
}

// What the bars say of a pair. Here and below the array itself goes along: the public field of `Barred` has this type.
fn bar(bars: &[[bool; 16]; 64], lock: usize, holder: usize) -> bool
    ensures { result ≡ bar_at bars.now lock holder }
{
    bars.get(lock).map_or(false, |marks| mark(marks, holder))
}

// What the bars of a lock say of a holder.
fn mark(marks: &[bool; 16], holder: usize) -> bool
    ensures { result ≡ slice_index_or marks.now holder false }
{
    marks.get(holder).map_or(false, |mark| *mark)
}

// Sets a pair among the bars, and answers whether that changed them.
fn set_bar(bars: &mut [[bool; 16]; 64], lock: usize, holder: usize, barred: bool) -> bool
    ensures value { result ≡ bar_changes (bar_at bars.old) lock holder barred }
    ensures after { bar_at bars.new ≡ bar_put (bar_at bars.old) lock holder barred }
{
    // By index: the library does not say what `get_mut` leaves in the other elements.
    if lock < 64 {
        set_mark(&mut bars[lock], holder, barred)
    } else {
        false
    }
}

// Sets a holder among the bars of a lock, and answers whether that changed them.
fn set_mark(marks: &mut [bool; 16], holder: usize, barred: bool) -> bool
    ensures len { length marks.old ≡ 16 }
    ensures value { result ≡ (nat_lt holder 16 && not (beq (slice_index_or marks.old holder false) barred)) }
    ensures after { marks.new ≡ slice_set marks.old holder barred }
{
    // By index, for the same reason.
    if holder >= 16 {
        return false;
    }
    let before = marks[holder];
    marks[holder] = barred;
    before != barred
}

// Whether a row over these locks names a barred pair: its digits are taken off from the first lock's on.
fn touched(bars: &[[bool; 16]; 64], holders: usize, scope: &Scope, row: usize) -> bool
    requires { (0 < holders) × (holders ≤ 16) }
    ensures { result ≡ touches (bar_at bars.now) holders (named scope.now) row }
{
    // A loop, since each digit needs what the last one left: an `any` would have to write to what it captures.
    let mut left = row;
    let mut place = holders.pow(scope.len() as u32);
    for lock in scope.as_slice() {
        place /= holders;
        let digit = left / place;
        left %= place;
        if bar(bars, *lock, digit) {
            return true;
        }
    }
    false
}

impl<B: Book> Book for Barred<B> {
    ghost meaning = { λ b. barred (bar_at b.bars) (B.Book.meaning b.book) };

    ghost ranged = { λ b. barred_ranged (bar_at b.bars) (B.Book.meaning b.book) (B.Book.ranged b.book) };

    fn locks(&self) -> usize {
        self.book.locks()
    }

    fn holders(&self) -> usize {
        self.book.holders()
    }

    fn tables(&self) -> usize {
        self.book.tables()
    }

    fn scope(&self, table: usize) -> Scope {
        self.book.scope(table)
    }

    fn charge(&self, table: usize, row: usize) -> Option<Charge> {
        let scope = self.book.scope(table);
        if touched(&self.bars, self.book.holders(), &scope, row) {
            None
        } else {
            self.book.charge(table, row)
        }
    }
}
