ghost use Rattle.std.specs.Prelude.{◌≡◌, ◌<◌, ◌≤◌, [], length, MatchOption, slice_index_or};
ghost use Rattle.filing.specs.Resolving.{names_of, Listing};

use super::NameList;
use crate::resolve::count_in;
use lines::Names;

impl<'a> NameList<'a> {
    // A list that has been tested.
    pub(crate) fn new(names: Option<Names<'a>>) -> NameList<'a>
        requires { Listing 64 (names_of names) }
        ensures { result.names ≡ names.entry }
    {
        NameList { names }
    }

    // How many names there are.
    pub fn count(self) -> usize
        ensures { result ≡ length (names_of self.entry.names) }
    {
        count_in(self.names)
    }

    // The name with a number, if there are so many.
    pub fn name(self, i: usize) -> Option<&'a [u8]>
        ensures { MatchOption result (length (names_of self.entry.names) ≤ i) (λ s. (i < length (names_of self.entry.names)) × (s.now ≡ slice_index_or (names_of self.entry.names) i [])) }
    {
        self.names?.name(i)
    }
}
