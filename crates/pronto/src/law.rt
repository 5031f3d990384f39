//! The law that any list of acts keeps, and an example of one. Each function's contract is the statement.
ghost use Rattle.pronto.specs.Example.{Afternoon, AlwaysAnswered};
ghost use Rattle.pronto.specs.Law.{Law, ToldSo};

/// The law of docs/law.md, and what follows from it for each committed message.
pub fn law_holds()
    ensures law { Law }
    ensures told { ToldSo }
{}

/// Every act has an answer; and an afternoon of two servers is played: both lead, one of them stops while its commit waits,
/// restarts, replays and leads again.
pub fn an_afternoon()
    ensures answered { AlwaysAnswered }
    ensures played { Afternoon }
{}
