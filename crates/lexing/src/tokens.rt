//! The words of a line, one after another.
ghost use Rattle.std.specs.Prelude.{◌≡◌};
ghost use Rattle.lexing.specs.Parts.{parts};
ghost use Rattle.lexing.specs.Tokens.{left, Gives};

use crate::cutting::cut;
use crate::numbers::number;

pub mod taking;

/// A word of a run file: a part of the file, with its line.
#[derive(Clone, Copy)]
pub enum Token<'a> {
    Number {
        text: &'a [u8],
        value: u64,
        line: u32,
    },
    Word {
        text: &'a [u8],
        line: u32,
    },
    /// There is no further word.
    // kept: a variant and not `None`, since the end tells its line as a word does.
    End {
        line: u32,
    },
}

/// The words of one line that are still to come.
#[derive(Drop)]
pub struct Lexer<'a> {
    rest: Option<&'a [u8]>,
    line: u32,
}

impl<'a> Lexer<'a> {
    /// The words of a line, which one space parts; the line has this number in the file.
    pub fn new(text: &'a [u8], line: u32) -> Lexer<'a>
        ensures words { left result ≡ parts 32 text.now }
        ensures line { result.line ≡ line }
    {
        Lexer {
            rest: Some(text),
            line,
        }
    }

    /// The next word, as a number where it writes one.
    pub fn token(&mut self) -> Token<'a>
        ensures gives { Gives result self.old.line (left self.old) (left self.new) }
        ensures line { self.new.line ≡ self.old.line }
    {
        let line = self.line;
        let Some(rest) = self.rest.take() else {
            return Token::End { line };
        };
        let text = match cut(rest, b' ') {
            Some((word, after)) => {
                self.rest = Some(after);
                word
            }
            None => rest,
        };
        match number(text) {
            Some(value) => Token::Number { text, value, line },
            None => Token::Word { text, line },
        }
    }
}
