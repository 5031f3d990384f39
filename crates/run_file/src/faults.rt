//! Why a text is not a run file.
ghost use Rattle.std.specs.Prelude.{◌≡◌};
ghost use Rattle.run_file.specs.Numbers.{why_number};

/// What is wrong with a file (docs/refusals.md has the numbers).
#[derive(Clone, Copy, PartialEq, Eq)]
pub enum Why {
    /// The file is over 32,768 bytes.
    TooLong,
    /// A section's head or count is wrong.
    Head,
    /// A name is wrong or repeated.
    Name,
    /// A step line is wrong.
    Step,
    /// A name is not listed.
    Unlisted,
    /// There are bytes after the last step.
    Leftover,
}

/// The first fault of a file, with its line from 1; the line is 0 where the file is too long.
#[derive(Clone, Copy, PartialEq, Eq)]
pub struct FileFault {
    pub why: Why,
    pub line: u32,
}

/// Why nothing was read.
#[derive(Clone, Copy, PartialEq, Eq)]
pub enum Unread {
    /// There is too little room for the largest file: 16 names and 999 steps.
    NoRoom,
    Faulty(FileFault),
}

impl Why {
    /// The fault in the line of this number.
    pub(crate) fn at(self, line: u32) -> FileFault
        ensures { result ≡ record { why = self; line = line } }
    {
        FileFault { why: self, line }
    }

    /// The number of this fault in docs/refusals.md.
    pub fn number(&self) -> u64
        ensures { result ≡ why_number self.now }
    {
        match *self {
            Why::TooLong => 20,
            Why::Head => 21,
            Why::Name => 22,
            Why::Step => 23,
            Why::Unlisted => 24,
            Why::Leftover => 25,
        }
    }
}
