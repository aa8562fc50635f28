// Splitting at the marks of the format: `=`, the comma, `:` and the end byte.
ghost use Rattle.std.specs.Prelude.{◌≡◌, ℕ, List, ◌∷◌, ◌++◌, MatchOption, ◌≢◌};
ghost use Rattle.lines.specs.Cuts.{mark_byte, Cut};

#[derive(Clone, Copy, PartialEq, Eq)]
pub(crate) enum Mark {
    Equals,
    Comma,
    Colon,
    End,
}

// The mark that a byte is, if it is one.
fn mark_of(b: u8) -> Option<Mark>
    ensures { MatchOption result ((m : Mark) → b ≢ mark_byte m) (λ m. b ≡ mark_byte m) }
{
    match char::from(b) {
        '=' => Some(Mark::Equals),
        ',' => Some(Mark::Comma),
        ':' => Some(Mark::Colon),
        '\n' => Some(Mark::End),
        _ => None,
    }
}

// What stands before and after the first of the mark, if it is there.
pub(crate) fn cut_at(bytes: &[u8], mark: Mark) -> Option<(&[u8], &[u8])>
    ensures { MatchOption result ((x y : List ℕ) → bytes.now ≢ x ++ (mark_byte mark ∷ y)) (λ p. Cut (mark_byte mark) bytes.now p.0.now p.1.now) }
{
    let i = bytes.iter().position(|b| mark_of(*b) == Some(mark))?;
    Some((&bytes[..i], &bytes[i + 1..]))
}

// The first line of a text, without its end byte, and what follows; nothing where no end byte is left.
pub fn next_line(text: &[u8]) -> Option<(&[u8], &[u8])>
    ensures { MatchOption result ((x y : List ℕ) → text.now ≢ x ++ (10 ∷ y)) (λ p. Cut 10 text.now p.0.now p.1.now) }
{
    cut_at(text, Mark::End)
}
