// Many weights together: as alternatives, and as rows that are all used.
ghost use Rattle.std.specs.Prelude.{◌≡◌, map};
ghost use Rattle.weighing.specs.Semirings.{either_over, both_over};

use crate::{Charge, Weighing};

// The either over a list of weights; over no weights it is none.
pub fn either_over<W: Weighing>(weights: &[W]) -> W
    ensures { result ≡ either_over W.algebra.ops weights.now }
{
    weights
        .iter()
        .fold(W::none(), |total, weight| total.either(*weight))
}

// What rows with these charges weigh together; no rows are free.
pub fn weigh_all<W: Weighing>(charges: &[Charge]) -> W
    ensures { result ≡ both_over W.algebra.ops (map W.algebra.weighed charges.now) }
{
    charges
        .iter()
        .fold(W::free(), |weight, charge| weight.both(W::weigh(*charge)))
}
