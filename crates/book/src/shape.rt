// A book's numbers and scopes without its charges, with a book's ranges in the type: asked of a book once, or made of
// tables that are added one by one.
ghost use Rattle.std.specs.Prelude.{◌≡◌, ℕ, ◌<◌, ◌≤◌, [], length};
ghost use Rattle.book.specs.Lists.{Rising, Below};
ghost use Rattle.book.specs.Shapes.{scope_at};

use crate::Scope;

// An array with its length beside it, as in a scope: a shape is copied too.
#[derive(Clone, Copy, Debug)]
pub struct BookShape {
    locks: usize,
    holders: usize,
    tables: usize,
    scopes: [Scope; 64],
    ghost some_lock: { 0 < locks },
    ghost few_locks: { locks ≤ 64 },
    ghost some_holder: { 0 < holders },
    ghost few_holders: { holders ≤ 16 },
    ghost few_tables: { tables ≤ 64 },
    ghost some_scope: { (t : ℕ) → t < tables → 0 < length (scope_at scopes t) },
    ghost short_scope: { (t : ℕ) → length (scope_at scopes t) ≤ 4 },
    ghost rising: { (t : ℕ) → Rising (scope_at scopes t) },
    ghost below: { (t : ℕ) → Below locks (scope_at scopes t) },
    ghost no_scope: { (t : ℕ) → tables ≤ t → scope_at scopes t ≡ [] },
}

mod makes;
mod reads;
