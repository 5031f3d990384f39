//! The first word of a step line.
ghost use Rattle.std.specs.Prelude.{◌≡◌, MatchOption, ◌≢◌};
ghost use Rattle.commands.specs.Words.{opening_text};

/// What is done with a whole server.
#[derive(Clone, Copy, Drop)]
pub enum ServerVerb {
    Suspect,
    Deliver,
    Stop,
    Start,
}

/// What is done with a client's job.
#[derive(Clone, Copy, Drop)]
pub enum JobVerb {
    Begin,
    Commit,
    Abort,
}

/// The statements that read a cell.
#[derive(Clone, Copy, Drop)]
pub enum ReadVerb {
    Get,
    Heads,
}

/// The statements that have a value.
#[derive(Clone, Copy, Drop)]
pub enum StoreVerb {
    Set,
    Add,
    Take,
}

/// The statements that have a member.
#[derive(Clone, Copy, Drop)]
pub enum MemberVerb {
    Join,
    Leave,
}

/// The sixteen words that open a step line, by what follows them.
#[derive(Clone, Copy, Drop)]
pub enum Opening {
    Order,
    Cell,
    Server(ServerVerb),
    Job(JobVerb),
    Read(ReadVerb),
    Store(StoreVerb),
    Member(MemberVerb),
}

/// The opening that a word spells; `None` where it spells none.
// kept: a public function; as a `TryFrom` it would need a refusal that says no more than `None`.
pub fn opening_of(word: &[u8]) -> Option<Opening>
    ensures { MatchOption result ((o : Opening) → word.now ≢ opening_text o) (λ o. word.now ≡ opening_text o) }
{
    match word {
        b"order" => Some(Opening::Order),
        b"cell" => Some(Opening::Cell),
        b"suspect" => Some(Opening::Server(ServerVerb::Suspect)),
        b"deliver" => Some(Opening::Server(ServerVerb::Deliver)),
        b"stop" => Some(Opening::Server(ServerVerb::Stop)),
        b"start" => Some(Opening::Server(ServerVerb::Start)),
        b"begin" => Some(Opening::Job(JobVerb::Begin)),
        b"commit" => Some(Opening::Job(JobVerb::Commit)),
        b"abort" => Some(Opening::Job(JobVerb::Abort)),
        b"get" => Some(Opening::Read(ReadVerb::Get)),
        b"heads" => Some(Opening::Read(ReadVerb::Heads)),
        b"set" => Some(Opening::Store(StoreVerb::Set)),
        b"add" => Some(Opening::Store(StoreVerb::Add)),
        b"take" => Some(Opening::Store(StoreVerb::Take)),
        b"join" => Some(Opening::Member(MemberVerb::Join)),
        b"leave" => Some(Opening::Member(MemberVerb::Leave)),
        _ => None,
    }
}
