//! Cutting a text at a byte, and comparing texts.
ghost use Rattle.std.specs.Prelude.{◌≡◌, [], ◌∷◌, ◌++◌, Decides, MatchOption};
ghost use Rattle.lexing.specs.Parts.{parts, Free};

/// The bytes before the first `stop`, and those after it; `None` where there is no `stop`.
pub fn cut(bytes: &[u8], stop: u8) -> Option<(&[u8], &[u8])>
    ensures text { MatchOption result (Free stop bytes.now) (λ p. Free stop p.0.now × (bytes.now ≡ p.0.now ++ (stop ∷ p.1.now))) }
    ensures parts { MatchOption result (parts stop bytes.now ≡ bytes.now ∷ []) (λ p. parts stop bytes.now ≡ p.0.now ∷ parts stop p.1.now) }
{
    let i = bytes.iter().position(|b| *b == stop)?;
    Some((&bytes[..i], &bytes[i + 1..]))
}

/// Whether two texts are the same.
// kept: a public function keeps its promise; the code itself writes `==`, which says the same.
pub fn same(text: &[u8], word: &[u8]) -> bool
    ensures { Decides result (text.now ≡ word.now) }
{
    text == word
}
