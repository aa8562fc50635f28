// Names: 1 to 24 letters, digits, `-` or `_`.
ghost use Rattle.std.specs.Prelude.{◌≡◌, MatchOption};
ghost use Rattle.weighing.specs.Tests.{Tells};
ghost use Rattle.lines.specs.Names.{name_byte, NameBytes, Name, NameEnds, AllNamed};

// The most bytes that a name has.
const LONGEST: usize = 24;

fn is_name_byte(b: u8) -> bool
    ensures { result ≡ name_byte b }
{
    matches!(char::from(b), 'A'..='Z' | 'a'..='z' | '0'..='9' | '-' | '_')
}

// Whether the bytes are a name.
pub fn is_name(bytes: &[u8]) -> bool
    ensures { Tells (Name bytes.now) result }
{
    !bytes.is_empty() && bytes.len() <= LONGEST && bytes.iter().all(|b| is_name_byte(*b))
}

// The place of the first byte that no name has, if there is one.
fn name_end(bytes: &[u8]) -> Option<usize>
    ensures { MatchOption result (NameBytes bytes.now) (λ i. NameEnds bytes.now i) }
{
    bytes.iter().position(|b| !is_name_byte(*b))
}

// Whether the bytes are names with commas between. It goes on only as far as a byte that no name has: a split at the
// commas would look for the next comma first, however far that is.
pub(crate) fn are_names(bytes: &[u8]) -> bool
    ensures { Tells (AllNamed bytes.now) result }
{
    let mut rest = bytes;
    while let Some(i) = name_end(rest) {
        if rest[i] != b',' || i == 0 || i > LONGEST {
            return false;
        }
        rest = &rest[i + 1..];
    }
    is_name(rest)
}
