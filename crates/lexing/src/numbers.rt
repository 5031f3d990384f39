//! Numbers: 1 to 18 decimal digits and no needless zero.
ghost use Rattle.std.specs.Prelude.{ℕ, MatchOption};
ghost use Rattle.lexing.specs.Forms.{Writes};

/// A number has at most so many digits, so that it fits 64 bits.
const DIGITS: usize = 18;

/// The number that a word writes; `None` where it writes none.
pub fn number(word: &[u8]) -> Option<u64>
    ensures { MatchOption result ((n : ℕ) → Writes n word.now → ⊥) (λ n. Writes n word.now) }
{
    if word.len() == 0 || word.len() > DIGITS {
        return None;
    }
    if word[0] == b'0' && word.len() > 1 {
        return None;
    }
    // kept: digit by digit. With `from_utf8` and `parse` a step line takes 1.8 times as long to read.
    let mut n = 0u64;
    for b in word {
        if !b.is_ascii_digit() {
            return None;
        }
        n = n * 10 + u64::from(*b - b'0');
    }
    Some(n)
}
