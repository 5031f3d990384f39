//! The two sections of a run file, and their heads.
ghost use Rattle.std.specs.Prelude.{◌≡◌, ℕ, Decides, MatchOption, ◌≢◌};
ghost use Rattle.run_file.specs.Form.{section_text, least, most, head, Counts};

use crate::files::making::{NAMES, STEPS};
use lexing::Lexer;

/// A section: `names K` and K names, or `steps N` and N steps.
#[derive(Clone, Copy)]
pub enum Section {
    Names,
    Steps,
}

impl Section {
    /// The least count: a file has a client, and perhaps no step.
    pub fn least(&self) -> u64
        ensures { result ≡ least self.now }
    {
        match *self {
            Section::Names => 1,
            Section::Steps => 0,
        }
    }

    /// The largest count: clients are 0 to 15, and a file has at most 999 steps.
    pub fn most(&self) -> u64
        ensures { result ≡ most self.now }
    {
        match *self {
            Section::Names => NAMES as u64,
            Section::Steps => STEPS as u64,
        }
    }

    /// The word that opens the section.
    fn text(&self) -> &'static [u8]
        ensures { result.now ≡ section_text self.now }
    {
        match *self {
            Section::Names => b"names",
            Section::Steps => b"steps",
        }
    }

    /// Whether a word opens the section.
    pub fn opens_with(&self, word: &[u8]) -> bool
        ensures { Decides result (word.now ≡ section_text self.now) }
    {
        word == self.text()
    }

    /// The count in the section's head, which has this line number in the file; `None` where the line is not such a head.
    pub fn count(&self, line: &[u8], number: u32) -> Option<u64>
        ensures { MatchOption result ((n : ℕ) → Counts self.now n → line.now ≢ head self.now n) (λ n. Counts self.now n × (line.now ≡ head self.now n)) }
    {
        let mut words = Lexer::new(line, number);
        if !self.opens_with(words.word()?) {
            return None;
        }
        let count = words.number(self.most())?;
        if count < self.least() {
            return None;
        }
        words.is_done().then_some(count)
    }
}
