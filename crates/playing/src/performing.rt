//! One act, whichever it is.
ghost use Rattle.pronto.specs.Steps.{Step};
ghost use Rattle.ensemble.specs.Whole.{state};

use bank::{DatabaseBank, ReplicaBank};
use broadcast::Broadcast;
use ensemble::Ensemble;
use pronto::{Act, Answer};

/// Performs an act, and answers what it answers.
pub fn perform<B: Broadcast, K: DatabaseBank>(ensemble: &mut Ensemble<B, K>, act: Act) -> Answer
    ensures { Step (state B.Broadcast K.ReplicaBank K.DatabaseBank.own ensemble.old) act result (state B.Broadcast K.ReplicaBank K.DatabaseBank.own ensemble.new) }
{
    let outcome = match act {
        Act::Begin(id) => ensemble.begin(id).map(|_| Answer::Done),
        Act::Run(id, cell, operation) => ensemble.run(id, cell, operation).map(Answer::Result),
        Act::Commit(id) => ensemble.commit(id).map(|_| Answer::Done),
        Act::Abort(id) => ensemble.abort(id).map(|_| Answer::Done),
        Act::Suspect(server) => ensemble.suspect(server).map(|_| Answer::Done),
        Act::Order => ensemble.order().map(Answer::Ordered),
        Act::Deliver(server) => ensemble.deliver(server).map(|(
            position,
            judgement,
        )| Answer::Delivered(position, judgement)),
        Act::Stop(server) => ensemble.stop(server).map(|_| Answer::Done),
        Act::Start(server) => ensemble.start(server).map(|_| Answer::Done),
    };
    outcome.unwrap_or_else(Answer::Refused)
}
