//! Reading a step line.
ghost use Rattle.lexing.specs.Tokens.{left};
ghost use Rattle.lexing.specs.Takes.{Takes};
ghost use Rattle.commands.specs.Words.{Aimed, target_words};
ghost use Rattle.commands.specs.Lines.{Reads, SpeltInFront};

use crate::openings::{Opening, opening_of};
use crate::shapes::{Command, Target};
use lexing::Lexer;

/// The largest job.
const LAST_JOB: u64 = u32::MAX as u64;

/// Values have at most 18 digits.
const LAST_VALUE: u64 = 999_999_999_999_999_999;

/// Server, name and job.
fn target<'a>(words: &mut Lexer<'a>) -> Option<Target<'a>>
    ensures { Takes Aimed target_words result (left words.old) (left words.new) }
{
    Some(Target {
        server: words.byte()?,
        name: words.name()?,
        job: words.number(LAST_JOB)? as u32,
    })
}

/// The command with this opening whose further words come next.
fn further<'a>(words: &mut Lexer<'a>, opening: Opening) -> Option<Command<'a>>
    ensures { SpeltInFront opening result (left words.old) (left words.new) }
{
    match opening {
        Opening::Order => Some(Command::Order),
        Opening::Cell => Some(Command::Cell(words.byte()?, words.byte()?)),
        Opening::Server(verb) => Some(Command::Server(verb, words.byte()?)),
        Opening::Job(verb) => Some(Command::Job(verb, target(words)?)),
        Opening::Read(verb) => Some(Command::Read(verb, target(words)?, words.byte()?)),
        Opening::Store(verb) => Some(Command::Store(
            verb,
            target(words)?,
            words.byte()?,
            words.number(LAST_VALUE)?,
        )),
        Opening::Member(verb) => Some(Command::Member(
            verb,
            target(words)?,
            words.byte()?,
            words.byte()?,
        )),
    }
}

/// The command that a line writes, which has this number in the file; `None` where it writes none.
// kept: the number. No answer shows it, but it is a parameter of a public function, and the lexer's words carry it.
pub fn parse(line: &[u8], number: u32) -> Option<Command<'_>>
    ensures { Reads result line.now }
{
    let mut words = Lexer::new(line, number);
    let opening = opening_of(words.word()?)?;
    let command = further(&mut words, opening)?;
    words.is_done().then_some(command)
}
