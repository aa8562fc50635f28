// Names by their numbers in a list: where each stands, if it does, and whether one stands twice.
ghost use Rattle.std.specs.Prelude.{◌≡◌, ℕ, ◌<◌, ◌≤◌, length, MatchOption};
ghost use Rattle.weighing.specs.Tests.{Tells};
ghost use Rattle.lines.specs.Names.{Absent};
ghost use Rattle.lines.specs.Told.{held};
ghost use Rattle.filing.specs.Judging.{Twice, Unlisted};
ghost use Rattle.book.specs.Lists.{Below};
ghost use Rattle.book.specs.Rows.{row_number};
ghost use Rattle.filing.specs.Resolving.{names_of, Found, Noted, StandsBefore};

use arrayvec::ArrayVec;
use lines::Names;

// Whether a name stands in the list before a place.
fn stands_before(names: Names, name: &[u8], i: usize) -> bool
    ensures { Tells (StandsBefore (held names.entry) name.now i) result }
{
    names.find(name).is_some_and(|first| first < i)
}

// Whether a name stands twice in the list.
pub(crate) fn has_twice(names: Names) -> bool
    ensures { Tells (Twice (held names.entry)) result }
{
    names
        .iter()
        .enumerate()
        .any(|(i, name)| stands_before(names, name, i))
}

// The number of a name in a list that may not have been read yet, if it is there. The three functions on such a list
// take an Option, as the reader keeps it: it has no list before that line, and a list that is read has a name.
pub(crate) fn find_in(list: Option<Names>, name: &[u8]) -> Option<usize>
    ensures { MatchOption result (Absent (names_of list.entry) name.now) (λ i. Found (names_of list.entry) name.now i) }
{
    list?.find(name)
}

// The numbers of up to four names in a list, if they are all there.
pub(crate) fn places_in(list: Option<Names>, names: Names) -> Option<ArrayVec<usize, 4>>
    requires { length (held names) ≤ 4 }
    ensures { MatchOption result (Unlisted (names_of list.entry) (held names.entry)) (λ p. Noted (names_of list.entry) (held names.entry) p) }
{
    let mut places = ArrayVec::new();
    for name in names.iter() {
        places.push(find_in(list, name)?);
    }
    Some(places)
}

// How many names a list has that may not have been read yet.
pub(crate) fn count_in(list: Option<Names>) -> usize
    ensures { result ≡ length (names_of list.entry) }
{
    list.map_or(0, |names| names.count())
}

// The row number of these holders, of whom there are so many in all.
pub(crate) fn number_of(places: &ArrayVec<usize, 4>, holders: usize) -> usize
    requires few { holders ≤ 16 }
    requires below { Below holders places.now.items }
    ensures { result ≡ row_number holders places.now.items }
{
    // Tried fold: that product and sum in its closure do not overflow is not proved, as the row has no bound there.
    let mut row = 0;
    for place in places.as_slice() {
        row = row * holders + place;
    }
    row
}
