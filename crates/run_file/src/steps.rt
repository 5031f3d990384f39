//! The steps of a run file.
use pronto::Act;

/// A step: an act, or the question what a cell of a server's database holds.
#[derive(Clone, Copy)]
pub enum Step {
    Act(Act),
    /// Server and cell.
    Cell(u8, u8),
}

/// A step with its own line: a view into the file, without the byte that ends it.
#[derive(Clone, Copy)]
pub struct Line<'a> {
    pub text: &'a [u8],
    pub step: Step,
}
