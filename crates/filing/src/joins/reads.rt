ghost use Rattle.std.specs.Prelude.{◌≡◌, ◌+◌, ◌<◌, [], ◌∷◌, ◌++◌};
ghost use Rattle.filing.specs.Drafts.{noted_joins};

use super::Joins;
use aggregation::Join;

impl Joins {
    // No joins.
    pub(crate) fn new() -> Joins
        ensures { noted_joins result ≡ [] }
    {
        Joins {
            len: 0,
            at: [Join { left: 0, right: 0 }; 63],
        }
    }

    // One join more.
    pub(crate) fn push(&mut self, join: Join)
        requires { self.old.len < 63 }
        ensures { noted_joins self.new ≡ noted_joins self.old ++ join ∷ [] }
    {
        self.at[self.len] = join;
        self.len += 1;
    }

    // The joins, in their order.
    pub fn as_slice(&self) -> &[Join]
        ensures { result.now ≡ noted_joins self.now }
    {
        &self.at[..self.len]
    }
}
