// A whole number from 0 to MOST.
ghost use Rattle.std.specs.Prelude.{◌≤◌};

#[derive(Clone, Copy, Debug, PartialEq, Eq, PartialOrd, Ord)]
pub struct Capped<const MOST: u32> {
    pub(crate) value: u32,
    ghost small: { value ≤ MOST },
}

mod reads;
