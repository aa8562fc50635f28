// Numbers in base ten, at most a million, without leading zeros.
ghost use Rattle.std.specs.Prelude.{ℕ, MatchOption};
ghost use Rattle.lines.specs.Numbers.{Spelled};

// The largest number of the format.
const MOST: u32 = 1_000_000;

// How many digits that number has.
const LONGEST: usize = 7;

// The number that the bytes spell, if they spell one.
pub fn read_number(bytes: &[u8]) -> Option<u32>
    ensures { MatchOption result ((n : ℕ) → Spelled n bytes.now → ⊥) (λ n. Spelled n bytes.now) }
{
    match bytes {
        // `parse` reads these, and the format does not have them.
        [b'0', _, ..] | [b'+', ..] => None,
        // More bytes than that are refused without going through them.
        _ if bytes.len() > LONGEST => None,
        _ => {
            let digits = str::from_utf8(bytes).ok()?;
            digits.parse().ok().filter(|n| *n <= MOST)
        }
    }
}
