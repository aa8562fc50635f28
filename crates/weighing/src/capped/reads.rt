ghost use Rattle.std.specs.Prelude.{◌≡◌, ◌<◌, MatchOption};
ghost use Rattle.weighing.specs.Capping.{cut};

use super::Capped;

impl<const MOST: u32> Capped<MOST> {
    // The number, where it is not above the largest.
    pub fn new(value: u32) -> Option<Capped<MOST>>
        ensures { MatchOption result (MOST < value) (λ c. c.value ≡ value) }
    {
        if value <= MOST {
            Some(Capped { value })
        } else {
            None
        }
    }

    // The number, cut to the largest.
    pub fn cut(number: u32) -> Capped<MOST>
        ensures { result ≡ cut MOST number }
    {
        Capped {
            value: number.min(MOST),
        }
    }

    // The plain number.
    pub fn value(self) -> u32
        ensures { result ≡ self.entry.value }
    {
        self.value
    }
}
