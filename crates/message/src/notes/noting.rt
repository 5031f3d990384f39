//! Making notes, and reading them.
ghost use Rattle.std.specs.Prelude.{◌≡◌, [], length};
ghost use Rattle.message.specs.Noted.{statements_of, results_of, Longer};

use super::{Notes, STATEMENTS};
use statement::{Operation, Statement};

impl Notes {
    /// No statement yet.
    pub fn new() -> Notes
        ensures statements { statements_of result ≡ [] }
        ensures results { results_of result ≡ [] }
    {
        Notes {
            statements: [Statement::reading_first(); STATEMENTS],
            results: [0; STATEMENTS],
            count: 0,
        }
    }

    /// How many statements there are.
    pub fn len(&self) -> usize
        ensures { result ≡ length (statements_of self.now) }
    {
        self.count
    }

    /// The statements, in the order of their runs.
    pub fn statements(&self) -> &[Statement]
        ensures { result.now ≡ statements_of self.now }
    {
        &self.statements[0..self.count]
    }

    /// The results, in the order of their statements.
    pub fn results(&self) -> &[u64]
        ensures { result.now ≡ results_of self.now }
    {
        &self.results[0..self.count]
    }

    /// These notes with one more statement and its result; `None` exactly where there are six already.
    pub fn with(&self, statement: Statement, answer: u64) -> Option<Notes>
        ensures { Longer self.now statement answer result }
    {
        if self.count >= STATEMENTS {
            return None;
        }
        let mut longer = *self;
        longer.statements[self.count] = statement;
        longer.results[self.count] = answer;
        longer.count = self.count + 1;
        Some(longer)
    }
}
