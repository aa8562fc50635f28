// A book by formula: every table is over locks that its number gives, and is charged by a fixed pattern.
ghost use Rattle.std.specs.Prelude.{◌≤◌};

use weighing::Charge;

// How the tables overlap.
#[derive(Clone, Copy)]
pub(crate) enum Kind {
    // Table t is over locks t and t + 1.
    Path,
    // Table t is over locks 0 and t + 1.
    Star,
    // As a path, with one more table over the first and the last lock.
    Ring,
    // Table t is over the four locks from 2 t on.
    Wide,
}

#[derive(Clone, Copy)]
pub(crate) struct Grid {
    kind: Kind,
    locks: usize,
    holders: usize,
    pattern: [Option<Charge>; 35],
    ghost some_locks: { 2 ≤ locks },
    ghost few_locks: { locks ≤ 64 },
    ghost some_holders: { 2 ≤ holders },
    ghost few_holders: { holders ≤ 16 },
}

mod reads;
