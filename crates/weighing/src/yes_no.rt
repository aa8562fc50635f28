// Yes/no: whether it can be at all.
ghost use Rattle.std.proofs.Common.{rules};
ghost use Rattle.weighing.specs.YesNos.{yes_nos};
ghost use Rattle.weighing.specs.YesNoLaws.{yes_no_laws};

use crate::{Charge, Weighing};

#[derive(Clone, Copy, Debug, PartialEq, Eq, PartialOrd, Ord)]
pub enum YesNo {
    No,
    Yes,
}

impl Weighing for YesNo {
    type Plain = bool;

    ghost algebra = { yes_nos };

    ghost lawful = { yes_no_laws };

    ghost decides = { Prim.search rules };

    fn none() -> YesNo {
        YesNo::No // it cannot be
    }

    fn free() -> YesNo {
        YesNo::Yes // nothing stands against it
    }

    fn weigh(_charge: Charge) -> YesNo {
        YesNo::Yes // at any charge
    }

    // Or.
    fn either(self, other: YesNo) -> YesNo {
        self.max(other)
    }

    // And.
    fn both(self, other: YesNo) -> YesNo {
        self.min(other)
    }

    fn plain(self) -> bool {
        self == YesNo::Yes
    }

    fn from_plain(value: bool) -> YesNo {
        if value { YesNo::Yes } else { YesNo::No }
    }
}
