// Sets of numbers below 64 (of locks, of tables), as an array of truth values.
ghost use Rattle.std.specs.Prelude.{◌≡◌, ◌<◌, ◌≤◌, false, nat_eq};
ghost use Rattle.book.specs.Scopes.{named};
ghost use Rattle.aggregation.specs.Sets.{◌∪◌, ◌∩◌, among, size, listed};
ghost use Rattle.order.specs.Marked.{marked};

use arrayvec::ArrayVec;
use book::Scope;

#[derive(Clone, Copy)]
pub(crate) struct Marks {
    on: [bool; 64],
}

impl Marks {
    // The empty set.
    pub(crate) fn none() -> Marks
        ensures { marked result ≡ (λ _. false) }
    {
        Marks { on: [false; 64] }
    }

    // One number alone.
    pub(crate) fn one(k: usize) -> Marks
        requires { k < 64 }
        ensures { marked result ≡ (λ u. nat_eq u k) }
    {
        let mut on = [false; 64];
        on[k] = true;
        Marks { on }
    }

    // The locks of a scope.
    pub(crate) fn of(scope: &Scope) -> Marks
        ensures { marked result ≡ among (named scope.now) }
    {
        let mut on = [false; 64];
        for lock in scope.as_slice() {
            on[*lock] = true;
        }
        Marks { on }
    }

    // Whether a number is in the set.
    pub(crate) fn holds(&self, k: usize) -> bool
        ensures { result ≡ marked self.now k }
    {
        self.on.get(k).map_or(false, |on| *on)
    }

    // The numbers of either set. By place, here and below: tried `iter_mut().zip`, of whose elements nothing is known after.
    // This and the next stay two: one function with a closure is longer than both bodies.
    pub(crate) fn or(&self, other: &Marks) -> Marks
        ensures { marked result ≡ marked self.now ∪ marked other.now }
    {
        let mut on = [false; 64];
        for (k, mark) in on.iter_mut().enumerate() {
            *mark = self.on[k] | other.on[k];
        }
        Marks { on }
    }

    // The numbers of both sets.
    pub(crate) fn and(&self, other: &Marks) -> Marks
        ensures { marked result ≡ marked self.now ∩ marked other.now }
    {
        let mut on = [false; 64];
        for (k, mark) in on.iter_mut().enumerate() {
            *mark = self.on[k] & other.on[k];
        }
        Marks { on }
    }

    // How many numbers below n are in the set.
    pub(crate) fn count(&self, n: usize) -> usize
        requires { n ≤ 64 }
        ensures { result ≡ size n (marked self.now) }
    {
        self.on[..n].iter().filter(|on| **on).count()
    }

    // The numbers below n, rising, where they are at most six.
    pub(crate) fn scope(&self, n: usize) -> Scope
        requires within { n ≤ 64 }
        requires few { size n (marked self.now) ≤ 6 }
        ensures { named result ≡ listed n (marked self.now) }
    {
        let mut locks: ArrayVec<usize, 6> = ArrayVec::new();
        for (k, on) in self.on[..n].iter().enumerate() {
            if *on {
                locks.push(k);
            }
        }
        Scope::of(locks.as_slice()).unwrap()
    }
}
