// Grade: a way is as good as its lowest row, and the best way counts.
ghost use Rattle.weighing.specs.Grades.{grades};
ghost use Rattle.weighing.specs.GradeLaws.{grade_laws, grade_decides};

use crate::{Capped, Charge, Weighing};

// The largest grade, that of what is free: one above that of the largest charge.
const MOST: u32 = Charge::MOST + 1;

// A number from 0 to 1,000,001.
pub type Grade = Capped<MOST>;

impl Weighing for Grade {
    type Plain = u32;

    ghost algebra = { grades };

    ghost lawful = { grade_laws };

    ghost decides = { λ x y. grade_decides x y };

    fn none() -> Grade {
        Grade::cut(0) // below every charge's grade
    }

    fn free() -> Grade {
        Grade::cut(MOST)
    }

    fn weigh(charge: Charge) -> Grade {
        Grade::cut(charge.value() + 1)
    }

    // The larger.
    fn either(self, other: Grade) -> Grade {
        self.max(other)
    }

    // The smaller.
    fn both(self, other: Grade) -> Grade {
        self.min(other)
    }

    fn plain(self) -> u32 {
        self.value()
    }

    fn from_plain(value: u32) -> Grade {
        Grade::new(value).unwrap_or(Grade::none())
    }
}
