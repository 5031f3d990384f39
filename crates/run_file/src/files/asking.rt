//! What a run file says.
ghost use Rattle.std.specs.Prelude.{◌≡◌, ◌≤◌, length, Some, None, MatchOption};
ghost use Rattle.run_file.specs.Texts.{text_at, longest};
ghost use Rattle.run_file.specs.Files.{names_of, lines_of, line_at};

use super::RunFile;
use crate::steps::Line;

impl<'a> RunFile<'a> {
    /// How many steps there are.
    pub fn count(&self) -> usize
        ensures { result ≡ length (lines_of self.now) }
    {
        self.lines.len()
    }

    /// The step at a place, from 0, with its line; `None` past the last.
    pub fn line(&self, place: usize) -> Option<Line<'a>>
        ensures value { result ≡ line_at (lines_of self.now) place }
        ensures short { MatchOption result (length (lines_of self.now) ≤ place) (λ l. length l.text.now ≤ longest l.step) }
    {
        self.lines.get(place).copied()
    }

    /// The name of a client; no letters where it is not listed.
    pub fn name(&self, client: u8) -> &'a [u8]
        ensures value { result.now ≡ text_at (names_of self.now) client }
        ensures short { length result.now ≤ 8 }
    {
        self.names.get(usize::from(client)).copied().unwrap_or(b"")
    }
}
