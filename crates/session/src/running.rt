//! The steps of a run file, one after another.
ghost use Rattle.std.specs.Prelude.{◌≡◌, ◌+◌, ◌<◌, ◌≤◌, length};
ghost use Rattle.ensemble.specs.Whole.{state};
ghost use Rattle.run_file.specs.Files.{names_of, lines_of, line_at};
ghost use Rattle.session.specs.Runs.{Stepped, Runs};

use bank::{DatabaseBank, ReplicaBank};
use broadcast::Broadcast;
use ensemble::Ensemble;
use run_file::RunFile;
use stepping::{LINE_BYTES, take_step};

/// The output has fewer than 97 bytes a step.
#[derive(Clone, Copy, PartialEq, Eq)]
pub struct ShortOutput;

// kept: the output and the place in it: the writer of lines is private to `stepping`, and a step is lent only the part that it may write.
/// Takes a step, and writes its line, ended by byte 10, from a place of the output on. Answers the place after it.
fn step_into<B: Broadcast, K: DatabaseBank>(
    file: &RunFile<'_>,
    place: usize,
    ensemble: &mut Ensemble<B, K>,
    output: &mut [u8],
    at: usize,
) -> usize
    requires there { place < length (lines_of file.now) }
    requires room { at + 97 ≤ length output.old }
    ensures { Stepped (names_of file.now) (line_at (lines_of file.now) place) output.old at output.new result (state B.Broadcast K.ReplicaBank K.DatabaseBank.own ensemble.old) (state B.Broadcast K.ReplicaBank K.DatabaseBank.own ensemble.new) }
{
    let end = at + LINE_BYTES;
    let Ok(Some(n)) = take_step(file, place, ensemble, &mut output[at..end]) else {
        unreachable!()
    };
    output[at + n] = b'\n';
    at + n + 1
}
