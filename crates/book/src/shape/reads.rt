ghost use Rattle.std.specs.Prelude.{◌≡◌, ◌<◌, ◌≤◌, true, length};
ghost use Rattle.book.specs.Scopes.{named};
ghost use Rattle.book.specs.Shapes.{scope_at};
ghost use Rattle.book.specs.BookShapes.{has_row};

use super::BookShape;
use crate::Scope;

impl BookShape {
    // How many locks there are.
    pub fn locks(&self) -> usize
        ensures value { result ≡ self.now.locks }
        ensures bound { (0 < result) × (result ≤ 64) }
    {
        self.locks
    }

    // How many holders there are.
    pub fn holders(&self) -> usize
        ensures value { result ≡ self.now.holders }
        ensures bound { (0 < result) × (result ≤ 16) }
    {
        self.holders
    }

    // How many tables there are.
    pub fn tables(&self) -> usize
        ensures value { result ≡ self.now.tables }
        ensures bound { result ≤ 64 }
    {
        self.tables
    }

    // The locks that a table is about; none outside the book.
    pub fn scope(&self, table: usize) -> Scope
        ensures value { named result ≡ scope_at self.now.scopes table }
        ensures bound { length (named result) ≤ 4 }
    {
        if table < self.tables {
            self.scopes[table]
        } else {
            Scope::none()
        }
    }

    // Whether there is such a table and it has such a row.
    pub fn has_row(&self, table: usize, row: usize) -> bool
        ensures value { result ≡ has_row self.now table row }
        ensures bound { result ≡ true → table < 64 }
    {
        table < self.tables && row < self.holders.pow(self.scope(table).len() as u32)
    }
}
