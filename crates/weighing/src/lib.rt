// Weighings: what the permitted ways to fill a case are worth, under `either` and `both`.
#![tactic(auto)]

ghost use Rattle.std.specs.Prelude.{◌≡◌};
ghost use Rattle.weighing.specs.Laws.{Algebra, Lawful};
ghost use Rattle.weighing.specs.Tests.{Tells};

mod capped;
mod charge;
mod cost;
mod grade;
mod sums;
mod yes_no;

pub use capped::Capped;
pub use charge::Charge;
pub use cost::{Amount, Cost};
pub use grade::Grade;
pub use sums::{either_over, weigh_all};
pub use yes_no::YesNo;

// A weighing (a commutative semiring whose plus selects). Its weights are the values of the type itself; in
// cells and outputs they lie as plain values.
pub trait Weighing: Copy + Eq {
    type Plain: Copy;

    ghost algebra: { Algebra Self Self.Plain };

    // The weight of what is not permitted.
    fn none() -> Self
        ensures { result ≡ algebra.ops.none };

    // The weight that changes nothing.
    fn free() -> Self
        ensures { result ≡ algebra.ops.free };

    // The weight of a row with this charge.
    fn weigh(charge: Charge) -> Self
        ensures { result ≡ algebra.weighed charge };

    // What two weights come to as alternatives.
    fn either(self, other: Self) -> Self
        ensures { result ≡ algebra.ops.either self other };

    // What two weights come to together.
    fn both(self, other: Self) -> Self
        ensures { result ≡ algebra.ops.both self other };

    // The plain value of a weight.
    fn plain(self) -> Self::Plain
        ensures { result ≡ algebra.plain self };

    // The weight of a plain value; none where it is no weight's.
    fn from_plain(value: Self::Plain) -> Self
        ensures { result ≡ algebra.read value };

    ghost lawful: { Lawful algebra };

    // `==` tells whether two weights are one.
    ghost decides: { (x y : Self) → Tells (x ≡ y) (Self.eq x y) };
}

#[cfg(test)]
mod tests;
