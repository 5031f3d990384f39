//! The lines that a run prints.
ghost use Rattle.std.specs.Prelude.{◌≡◌};
ghost use Rattle.ensemble.specs.Whole.{state};
ghost use Rattle.run_file.specs.Files.{names_of, lines_of, line_at};
ghost use Rattle.stepping.specs.Lines.{Steps, fault_text, Writes};

use crate::putting::LineWriter;
use crate::taking::take;
use bank::{DatabaseBank, ReplicaBank};
use broadcast::Broadcast;
use ensemble::Ensemble;
use run_file::RunFile;

/// The least bytes of a buffer for lines. No line takes more.
pub const LINE_BYTES: usize = 96;

/// The buffer for a line is under 96 bytes.
#[derive(Clone, Copy, PartialEq, Eq)]
pub struct ShortLine;

impl ShortLine {
    /// The number of this refusal in docs/refusals.md.
    pub fn number(&self) -> u64
        ensures { result ≡ 18 }
    {
        18
    }
}

/// Takes the step at a place of the file, from 0, and writes its line, without the byte that ends it, to the front of the buffer. Answers how
/// long the line is, or `None` past the last step. A refused act has its line too. The other bytes of the buffer stay.
///
/// Refused exactly where the buffer is under 96 bytes; then nothing changes.
pub fn take_step<B: Broadcast, K: DatabaseBank>(
    file: &RunFile<'_>,
    place: usize,
    ensemble: &mut Ensemble<B, K>,
    line: &mut [u8],
) -> Result<Option<usize>, ShortLine>
    ensures { Steps result (names_of file.now) (line_at (lines_of file.now) place) line.old line.new (state B.Broadcast K.ReplicaBank K.DatabaseBank.own ensemble.old) (state B.Broadcast K.ReplicaBank K.DatabaseBank.own ensemble.new) }
{
    if line.len() < LINE_BYTES {
        return Err(ShortLine);
    }
    // kept: the form for an `Option` within a `Result`, where `?` cannot pass `None` on.
    let Some(found) = file.line(place) else {
        return Ok(None);
    };
    let answer = take(ensemble, found.step);
    let mut out = LineWriter::new(line);
    out.text(found.text);
    out.text(b" -> ");
    out.answer(file, ensemble, answer);
    Ok(Some(out.len()))
}

/// Writes the line of a faulty file, `file F L`, to the front of the buffer, and answers its length. The other bytes of the buffer stay.
///
/// Refused exactly where the buffer is under 96 bytes; then nothing changes.
pub fn write_fault(number: u64, at: u32, line: &mut [u8]) -> Result<usize, ShortLine>
    ensures { Writes result (fault_text number at) line.old line.new }
{
    if line.len() < LINE_BYTES {
        return Err(ShortLine);
    }
    let mut out = LineWriter::new(line);
    out.text(b"file ");
    out.number(number);
    out.text(b" ");
    out.number(u64::from(at));
    Ok(out.len())
}
