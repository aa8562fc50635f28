ghost use Rattle.std.specs.Prelude.{◌≡◌, ◌<◌, ◌≤◌, length};
ghost use Rattle.book.specs.Lists.{Rising, Below};
ghost use Rattle.book.specs.Scopes.{named};
ghost use Rattle.bench.specs.Grids.{tables_of, scope_of, scope_at, by_formula, grid_ranged};

use super::{Grid, Kind};
use crate::trial::Trial;
use book::{Book, Scope};
use std::array;
use weighing::Charge;

// The scope of these locks.
fn over(locks: &[usize]) -> Scope
    requires few { length locks.now ≤ 6 }
    requires rising { Rising locks.now }
    requires below { Below 64 locks.now }
    ensures { named result ≡ locks.now }
{
    Scope::of(locks).unwrap()
}

impl Kind {
    // How many tables there are over so many locks.
    fn tables(self, locks: usize) -> usize
        requires { (2 ≤ locks) × (locks ≤ 64) }
        ensures { result ≡ tables_of self locks }
    {
        match self {
            Kind::Path | Kind::Star => locks - 1,
            Kind::Ring => locks,
            Kind::Wide => locks / 2 - 1,
        }
    }

    // The locks of a table.
    fn scope(self, locks: usize, table: usize) -> Scope
        requires { (2 ≤ locks) × ((locks ≤ 64) × (table < tables_of self locks)) }
        ensures { named result ≡ scope_of self locks table }
    {
        match self {
            Kind::Path => over(&[table, table + 1]),
            Kind::Star => over(&[0, table + 1]),
            Kind::Ring if table + 1 < locks => over(&[table, table + 1]),
            Kind::Ring => over(&[0, locks - 1]),
            Kind::Wide => over(&[2 * table, 2 * table + 1, 2 * table + 2, 2 * table + 3]),
        }
    }
}

// The charges in turn: every fifth row is absent, the others are charged 0 to 6.
fn pattern() -> [Option<Charge>; 35] {
    array::from_fn(|row| {
        if row % 5 == 0 {
            None
        } else {
            Charge::new((row % 7) as u32)
        }
    })
}

impl Grid {
    // A book with so many locks and holders, where they are 2 to 64 and 2 to 16.
    pub(crate) fn new(trial: Trial) -> Option<Grid> {
        let Trial {
            kind,
            locks,
            holders,
        } = trial;
        if locks < 2 || locks > 64 || holders < 2 || holders > 16 {
            return None;
        }
        Some(Grid {
            kind,
            locks,
            holders,
            pattern: pattern(),
        })
    }

    // The locks of a table; none beyond the last.
    fn scope_at(&self, table: usize) -> Scope
        ensures { named result ≡ scope_at self.now.kind self.now.locks table }
    {
        if table < self.kind.tables(self.locks) {
            self.kind.scope(self.locks, table)
        } else {
            Scope::none()
        }
    }
}

impl Book for Grid {
    ghost meaning = { by_formula };

    ghost ranged = { grid_ranged };

    fn locks(&self) -> usize {
        self.locks
    }

    fn holders(&self) -> usize {
        self.holders
    }

    fn tables(&self) -> usize {
        self.kind.tables(self.locks)
    }

    fn scope(&self, table: usize) -> Scope {
        self.scope_at(table)
    }

    fn charge(&self, table: usize, row: usize) -> Option<Charge> {
        let scope = self.scope_at(table);
        if table < self.kind.tables(self.locks) && row < self.holders.pow(scope.len() as u32) {
            self.pattern[(row % 35 + table % 35) % 35]
        } else {
            None
        }
    }
}
