// Names that stand in a text, with commas between. What the list holds is what stands between the commas.
ghost use Rattle.std.specs.Prelude.{◌≡◌, ℕ, ◌<◌, ◌≤◌, List, [], length, MatchOption, ◌≢◌, slice_index_or};
ghost use Rattle.std.specs.Iterator.{YieldsFirstRef, item_count};
ghost use Rattle.lines.specs.Names.{joined, FirstAt, Absent};
ghost use Rattle.lines.specs.Told.{held, left, SomeNamed, Named};

use super::cut::{Mark, cut_at};
use super::name::are_names;

// How many names there are is no invariant: the bounds that the contracts state differ by the line's kind.
#[derive(Clone, Copy)]
pub struct Names<'a> {
    bytes: &'a [u8],
}

// The names of a list that are still to come, in the list's order. Not the library's split: over a closure that has no
// name for a public type.
#[derive(Clone, Drop)]
pub struct NamesIter<'a> {
    // What is left of the bytes; nothing after the last name.
    rest: Option<&'a [u8]>,
}

// `split` stands in three methods below: a function may hand out no closure, so none can hand out the split.
impl<'a> Names<'a> {
    // The names that the bytes spell, if they spell any.
    pub(crate) fn read_some(bytes: &'a [u8]) -> Option<Names<'a>>
        ensures { MatchOption result ((ns : List (List ℕ)) → SomeNamed ns → bytes.now ≢ joined ns) (λ n. SomeNamed (held n) × (bytes.now ≡ joined (held n))) }
    {
        are_names(bytes).then_some(Names { bytes })
    }

    // The same, if there are from `least` to `most` of them.
    // Two bounds, as in `read_charged`: tried one range, and it is not known that it has not been gone through already.
    pub(crate) fn read_few(bytes: &'a [u8], least: usize, most: usize) -> Option<Names<'a>>
        requires { 0 < least }
        ensures { MatchOption result ((ns : List (List ℕ)) → Named least most ns → bytes.now ≢ joined ns) (λ n. Named least most (held n) × (bytes.now ≡ joined (held n))) }
    {
        let names = Names::read_some(bytes)?;
        (least..=most).contains(&names.count()).then_some(names)
    }

    // The names, one by one.
    pub fn iter(self) -> NamesIter<'a>
        ensures { left result ≡ held self.entry }
    {
        NamesIter {
            rest: Some(self.bytes),
        }
    }

    // How many names there are.
    pub fn count(self) -> usize
        ensures { result ≡ length (held self.entry) }
    {
        self.bytes.split(|b| *b == b',').count()
    }

    // The name at a place, if there are so many.
    pub fn name(self, i: usize) -> Option<&'a [u8]>
        ensures { MatchOption result (length (held self.entry) ≤ i) (λ s. (i < length (held self.entry)) × (s.now ≡ slice_index_or (held self.entry) i [])) }
    {
        self.bytes.split(|b| *b == b',').nth(i)
    }

    // The first place of a name, if it is in the list.
    pub fn find(self, name: &[u8]) -> Option<usize>
        ensures { MatchOption result (Absent (held self.entry) name.now) (λ i. FirstAt (held self.entry) name.now i) }
    {
        self.bytes
            .split(|b| *b == b',')
            .position(|other| other == name)
    }
}

impl<'a> Iterator for NamesIter<'a> {
    type Item = &'a [u8];

    ghost next_gives = { YieldsFirstRef left };

    ghost remaining = { item_count left };

    fn next(&mut self) -> Option<&'a [u8]> {
        let rest = self.rest.take()?;
        let Some((name, after)) = cut_at(rest, Mark::Comma) else {
            return Some(rest);
        };
        self.rest = Some(after);
        Some(name)
    }
}
