//! Room for a run file, and reading one into it.
ghost use Rattle.std.specs.Prelude.{◌≡◌, [], vec_capacity};
ghost use Rattle.run_file.specs.Files.{names_of, lines_of};
ghost use Rattle.run_file.specs.Outcomes.{Reads};

use super::RunFile;
use crate::faults::Unread;
use crate::reader::read_file;
use crate::steps::Line;

/// The largest file has so many names.
pub const NAMES: usize = 16;

/// The largest file has so many steps.
pub const STEPS: usize = 999;

impl<'a> RunFile<'a> {
    /// A file without names and steps, with the room of these lists. `NAMES` and `STEPS` are enough for every file.
    pub fn new(mut names: Vec<&'a [u8]>, mut lines: Vec<Line<'a>>) -> RunFile<'a>
        ensures names { (names_of result ≡ []) × (vec_capacity result.names ≡ vec_capacity names.entry) }
        ensures lines { (lines_of result ≡ []) × (vec_capacity result.lines ≡ vec_capacity lines.entry) }
    {
        names.clear();
        lines.clear();
        RunFile { names, lines }
    }

    /// Reads a text: what was there before is forgotten, and the room stays.
    ///
    /// Refused exactly where there is too little room for the largest file, and then where the text is not a run file; the names and the steps
    /// are then empty.
    pub fn read(&mut self, text: &'a [u8]) -> Result<(), Unread>
        ensures read { Reads text.now (vec_capacity self.old.names) (vec_capacity self.old.lines) result (names_of self.new) (lines_of self.new) }
        ensures room { (vec_capacity self.new.names ≡ vec_capacity self.old.names) × (vec_capacity self.new.lines ≡ vec_capacity self.old.lines) }
    {
        self.names.clear();
        self.lines.clear();
        if self.names.capacity() < NAMES || self.lines.capacity() < STEPS {
            return Err(Unread::NoRoom);
        }
        let outcome = read_file(text, &mut self.names, &mut self.lines);
        if outcome.is_err() {
            self.names.clear();
            self.lines.clear();
        }
        outcome.map_err(Unread::Faulty)
    }
}
