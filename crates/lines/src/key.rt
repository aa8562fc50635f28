// The eight keys, and what follows one.
ghost use Rattle.std.specs.Prelude.{◌≡◌, ℕ, List, ◌++◌, MatchOption, ◌≢◌};
ghost use Rattle.lines.specs.Told.{key};

use super::kind::Kind;

// The key that the line begins with, and what follows it.
pub(crate) fn key_of(line: &[u8]) -> Option<(Kind, &[u8])>
    ensures { MatchOption result ((k : Kind) (x : List ℕ) → line.now ≢ key k ++ x) (λ p. line.now ≡ key p.0 ++ p.1.now) }
{
    match line {
        [b'l', b'o', b'c', b'k', b's', b'=', rest @ ..] => Some((Kind::Locks, rest)),
        [b'h', b'o', b'l', b'd', b'e', b'r', b's', b'=', rest @ ..] => Some((Kind::Holders, rest)),
        [b't', b'a', b'b', b'l', b'e', b'=', rest @ ..] => Some((Kind::Table, rest)),
        [b'r', b'o', b'w', b'=', rest @ ..] => Some((Kind::Row, rest)),
        [b'd', b'i', b'f', b'f', b'e', b'r', b'=', rest @ ..] => Some((Kind::Differ, rest)),
        [b's', b'a', b'm', b'e', b'=', rest @ ..] => Some((Kind::Same, rest)),
        [b'j', b'o', b'i', b'n', b'=', rest @ ..] => Some((Kind::Join, rest)),
        [b'b', b'a', b'r', b'=', rest @ ..] => Some((Kind::Bar, rest)),
        _ => None,
    }
}
