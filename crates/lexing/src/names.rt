//! Names: 1 to 8 letters a to z.
ghost use Rattle.std.specs.Prelude.{Decides};
ghost use Rattle.lexing.specs.Forms.{Name};

/// A name has at most so many letters.
const LETTERS: usize = 8;

/// Whether a word is a name.
pub fn is_name(word: &[u8]) -> bool
    ensures { Decides result (Name word.now) }
{
    (1..=LETTERS).contains(&word.len()) && word.iter().all(u8::is_ascii_lowercase)
}
