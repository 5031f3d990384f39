//! Taking a word of a kind from the front of a line.
ghost use Rattle.std.specs.Prelude.{◌≡◌, ◌^◌, ◌<◌, ◌≤◌, [], ◌∷◌, decimal, Decides};
ghost use Rattle.std.specs.Option.{option_map};
ghost use Rattle.lexing.specs.Forms.{Name, Word};
ghost use Rattle.lexing.specs.Tokens.{left};
ghost use Rattle.lexing.specs.Takes.{Takes};

use super::{Lexer, Token};
use crate::names::is_name;

impl<'a> Lexer<'a> {
    /// The next word, where it writes a number of at most `most`.
    pub fn number(&mut self, most: u64) -> Option<u64>
        ensures takes { Takes (λ n. (n < 10 ^ 18) × (n ≤ most)) (λ n. decimal n ∷ []) result (left self.old) (left self.new) }
        ensures line { self.new.line ≡ self.old.line }
    {
        match self.token() {
            Token::Number { value, .. } if value <= most => Some(value),
            _ => None,
        }
    }

    /// The next word, where it writes a number of at most 255.
    pub fn byte(&mut self) -> Option<u8>
        ensures takes { Takes (λ n. n ≤ 255) (λ n. decimal n ∷ []) result (left self.old) (left self.new) }
        ensures line { self.new.line ≡ self.old.line }
    {
        self.number(255).map(|n| n as u8)
    }

    /// The next word, where it is a name.
    pub fn name(&mut self) -> Option<&'a [u8]>
        ensures takes { Takes Name (λ t. t ∷ []) (option_map (λ x. x.now) result) (left self.old) (left self.new) }
        ensures line { self.new.line ≡ self.old.line }
    {
        self.word().filter(|text| is_name(text))
    }

    /// The next word, where it writes no number.
    pub fn word(&mut self) -> Option<&'a [u8]>
        ensures takes { Takes Word (λ t. t ∷ []) (option_map (λ x. x.now) result) (left self.old) (left self.new) }
        ensures line { self.new.line ≡ self.old.line }
    {
        match self.token() {
            Token::Word { text, .. } => Some(text),
            _ => None,
        }
    }

    /// Whether no further word comes.
    pub fn is_done(&self) -> bool
        ensures { Decides result (left self.now ≡ []) }
    {
        self.rest.is_none()
    }
}
