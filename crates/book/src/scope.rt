// Up to six locks below 64, in rising order: a table's scope, or what a join keeps.
ghost use Rattle.std.specs.Prelude.{◌≤◌, take};
ghost use Rattle.book.specs.Lists.{Rising, Below};

// An array with its length beside it: a book's scopes are copied and lie in fixed memory, and ArrayVec is not Copy.
#[derive(Clone, Copy, Debug)]
pub struct Scope {
    len: usize,
    locks: [usize; 6],
    ghost short: { len ≤ 6 },
    ghost rising: { Rising (take len locks) },
    ghost below: { Below 64 (take len locks) },
}

mod reads;

pub(crate) use reads::is_below;
