//! One step, whichever it is.
ghost use Rattle.ensemble.specs.Whole.{state};
ghost use Rattle.stepping.specs.Taking.{Takes};

use bank::{DatabaseBank, ReplicaBank};
use broadcast::Broadcast;
use ensemble::Ensemble;
use playing::perform;
use pronto::Answer;
use run_file::Step;

/// Takes a step, and answers what its act or its question answers.
pub fn take<B: Broadcast, K: DatabaseBank>(ensemble: &mut Ensemble<B, K>, step: Step) -> Answer
    ensures { Takes (state B.Broadcast K.ReplicaBank K.DatabaseBank.own ensemble.old) step result (state B.Broadcast K.ReplicaBank K.DatabaseBank.own ensemble.new) }
{
    match step {
        Step::Act(act) => perform(ensemble, act),
        Step::Cell(server, cell) => ensemble
            .cell(server, u64::from(cell))
            .map_or_else(Answer::Refused, Answer::Result),
    }
}
