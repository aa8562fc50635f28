// The names of an accepted text's locks, or of its holders: at most 64, each well formed, none twice.
ghost use Rattle.std.specs.Prelude.{◌≡◌, ℕ, ◌<◌, ◌≤◌, [], length, ◌≢◌, slice_index_or};
ghost use Rattle.std.specs.List.{AllByRecursion};
ghost use Rattle.lines.specs.Names.{Name};
ghost use Rattle.filing.specs.Resolving.{names_of};

use lines::Names;

#[derive(Clone, Copy)]
pub struct NameList<'a> {
    names: Option<Names<'a>>,
    ghost few: { length (names_of names) ≤ 64 },
    ghost formed: { ∥ AllByRecursion Name (names_of names) ∥₁ },
    ghost apart: { (j k : ℕ) → j < k → k < length (names_of names) → slice_index_or (names_of names) j [] ≢ slice_index_or (names_of names) k [] },
}

mod reads;
