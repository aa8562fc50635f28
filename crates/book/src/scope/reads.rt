ghost use Rattle.std.specs.Prelude.{◌≡◌, ◌<◌, ◌≤◌, ◌↔◌, [], length, IsTrue, MatchOption, slice_index};
ghost use Rattle.book.specs.Lists.{Rising, Below};
ghost use Rattle.book.specs.Scopes.{named};

use super::Scope;

impl Scope {
    // How many locks it has.
    pub fn len(&self) -> usize
        ensures value { result ≡ length (named self.now) }
        ensures bound { result ≤ 6 }
    {
        self.len
    }

    // Its lock at a place; 0 beyond its last.
    pub fn lock(&self, i: usize) -> usize
        ensures value { result ≡ slice_index (named self.now) i }
        ensures bound { result < 64 }
    {
        self.as_slice().get(i).map_or(0, |lock| *lock)
    }

    // Its locks, rising.
    pub fn as_slice(&self) -> &[usize]
        ensures { result.now ≡ named self.now }
    {
        &self.locks[..self.len]
    }

    // No locks.
    pub fn none() -> Scope
        ensures { named result ≡ [] }
    {
        Scope {
            len: 0,
            locks: [0; 6],
        }
    }

    // These locks, where they are at most six, rise and are below 64.
    pub fn of(locks: &[usize]) -> Option<Scope>
        ensures { MatchOption result (Rising locks.now → Below 64 locks.now → 6 < length locks.now) (λ s. named s ≡ locks.now) }
    {
        if locks.len() > 6 || !is_rising(locks) || !is_below(64, locks) {
            return None;
        }
        let mut row = [0; 6];
        row[..locks.len()].copy_from_slice(locks);
        Some(Scope {
            len: locks.len(),
            locks: row,
        })
    }
}

// Whether each lock is above the one before it.
fn is_rising(locks: &[usize]) -> bool
    ensures { IsTrue result ↔ Rising locks.now }
{
    locks.is_sorted_by(|before, lock| *before < *lock)
}

// Whether each lock is below a limit.
pub(crate) fn is_below(limit: usize, locks: &[usize]) -> bool
    ensures { IsTrue result ↔ Below limit locks.now }
{
    locks.iter().all(|lock| *lock < limit)
}
