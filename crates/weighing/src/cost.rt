// Cost: what the permitted rows are charged together, the least of all ways. None is dearer than any amount.
ghost use Rattle.std.specs.Prelude.{◌≡◌};
ghost use Rattle.weighing.specs.Costs.{amount_of, costs};
ghost use Rattle.weighing.specs.CostLaws.{cost_laws, cost_decides};

use crate::{Capped, Charge, Weighing};

// The largest amount: what a larger sum is cut to.
const MOST: u32 = 1_000_000_000;

// The plain value of none, above every amount: cells hold plain values, a form the project fixes.
const NO_COST: u32 = u32::MAX;

// A finite cost.
pub type Amount = Capped<MOST>;

// An amount; without one, what cannot be paid.
#[derive(Clone, Copy, Debug, PartialEq, Eq)]
pub struct Cost {
    pub amount: Option<Amount>,
}

impl Cost {
    // The amount, where there is one.
    pub fn amount(self) -> Option<u32>
        ensures { result ≡ amount_of self }
    {
        self.amount.map(Amount::value)
    }
}

impl Weighing for Cost {
    type Plain = u32;

    ghost algebra = { costs };

    ghost lawful = { cost_laws };

    ghost decides = { λ x y. cost_decides x.amount y.amount };

    fn none() -> Cost {
        Cost { amount: None } // it cannot be paid
    }

    fn free() -> Cost {
        Cost {
            amount: Some(Amount::cut(0)),
        }
    }

    fn weigh(charge: Charge) -> Cost {
        Cost {
            amount: Some(Amount::cut(charge.value())),
        }
    }

    // The smaller.
    fn either(self, other: Cost) -> Cost {
        match (self.amount, other.amount) {
            (Some(x), Some(y)) => Cost {
                amount: Some(x.min(y)),
            },
            (None, _) => other,
            (_, None) => self,
        }
    }

    // The sum, cut to the largest amount.
    fn both(self, other: Cost) -> Cost {
        Cost {
            amount: self
                .amount
                .zip(other.amount)
                .map(|(x, y)| Amount::cut(x.value() + y.value())),
        }
    }

    fn plain(self) -> u32 {
        self.amount.map_or(NO_COST, Amount::value)
    }

    fn from_plain(value: u32) -> Cost {
        Cost {
            amount: Amount::new(value),
        }
    }
}
