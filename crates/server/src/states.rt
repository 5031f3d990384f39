//! How far an open transaction is, and what becomes of it.
ghost use Rattle.std.specs.Prelude.{◌≡◌};
ghost use Rattle.server.specs.Outcomes.{outcome_of};

use pronto::ServerFault;

/// How far an open transaction is.
#[derive(Clone, Copy, PartialEq, Eq)]
pub enum State {
    /// It may run statements.
    Executing,
    /// Its message is offered, and not delivered here yet.
    Committing,
}

/// What reaches an open transaction.
#[derive(Clone, Copy)]
pub enum Arrival {
    /// A statement to run.
    Run,
    /// A wish to commit it.
    Commit,
    /// A wish to abort it.
    Abort,
    /// Its own message, delivered at its server.
    Delivered,
}

/// What becomes of a transaction.
#[derive(Clone, Copy)]
pub enum Outcome {
    /// It stays as it is.
    Stays,
    /// It is committing from now on.
    Commits,
    /// It is removed.
    Ends,
}

/// What becomes of a transaction that is reached in a state.
///
/// Refused where it is committing, unless its own message reaches it.
pub fn arrive(state: State, arrival: Arrival) -> Result<Outcome, ServerFault>
    ensures { result ≡ outcome_of state arrival }
{
    match (state, arrival) {
        (State::Executing, Arrival::Run) => Ok(Outcome::Stays),
        (State::Executing, Arrival::Commit) => Ok(Outcome::Commits),
        (State::Executing, Arrival::Abort) => Ok(Outcome::Ends),
        (State::Executing, Arrival::Delivered) => Ok(Outcome::Stays),
        (State::Committing, Arrival::Delivered) => Ok(Outcome::Ends),
        (State::Committing, Arrival::Run | Arrival::Commit | Arrival::Abort) => Err(
            ServerFault::Committing,
        ),
    }
}
