ghost use Rattle.std.specs.Prelude.{◌≡◌};
ghost use Rattle.order.specs.Rows.{row_of, no_row};

use super::Part;
use crate::side::Side;
use book::Scope;

impl Part {
    // What stands where there is no join: table 0 twice, no locks, the first cell.
    pub(crate) fn none() -> Part
        ensures { row_of result ≡ no_row }
    {
        Part {
            left: Side::Table(0),
            right: Side::Table(0),
            kept: Scope::none(),
            at: 0,
        }
    }
}
