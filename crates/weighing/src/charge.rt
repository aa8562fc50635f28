// Charges.
use crate::Capped;

const MOST: u32 = 1_000_000;

// What a permitted row is charged.
pub type Charge = Capped<MOST>;

impl Charge {
    // The largest charge.
    pub const MOST: u32 = MOST;

    // A charge of nothing.
    pub const ZERO: Charge = Capped { value: 0 };
}
