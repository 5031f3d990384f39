//! A run file that was read.
ghost use Rattle.std.specs.Prelude.{◌≡◌, ℕ, ◌≤◌, true, length};
ghost use Rattle.run_file.specs.Texts.{texts, text_at, lines_are_short};

use crate::steps::Line;

pub mod asking;
pub mod making;

/// Names and steps. A name's place is its client's number.
#[derive(Drop)]
pub struct RunFile<'a> {
    names: Vec<&'a [u8]>,
    lines: Vec<Line<'a>>,
    ghost short_names: { (k : ℕ) → length (text_at (texts names.items) k) ≤ 8 },
    ghost short_lines: { lines_are_short lines.items ≡ true },
}
