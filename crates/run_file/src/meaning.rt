//! The step that a command means.
ghost use Rattle.std.specs.Prelude.{◌≡◌, ℕ, ◌<◌, ◌≤◌, length, Some, MatchOption};
ghost use Rattle.run_file.specs.declared.files.making.TheConstants.{NAMES};
ghost use Rattle.run_file.specs.Texts.{texts, text_at};
ghost use Rattle.run_file.specs.Form.{Apart};
ghost use Rattle.run_file.specs.Steps.{act_of_server, act_of_job, reading, storing, changing, aimed_at, Numbered, Unlisted, Means};

use crate::steps::Step;
use commands::{Command, JobVerb, MemberVerb, ReadVerb, ServerVerb, StoreVerb, Target};
use pronto::{Act, TransactionId};
use statement::Operation;

/// The place of a name among the names; `None` where it is not listed.
pub fn place_of(names: &[&[u8]], name: &[u8]) -> Option<usize>
    ensures { MatchOption result (Apart (texts names.now) name.now) (λ k. (k < length (texts names.now)) × (text_at (texts names.now) k ≡ name.now)) }
{
    let place = names.iter().position(|listed| *listed == name)?;
    Some(place)
}

// kept: plain functions for these five, since `From` cannot be written between types of two other crates.

/// The act of a verb on a server.
fn server_act(verb: ServerVerb, server: u8) -> Act
    ensures { result ≡ act_of_server verb server }
{
    match verb {
        ServerVerb::Suspect => Act::Suspect(server),
        ServerVerb::Deliver => Act::Deliver(server),
        ServerVerb::Stop => Act::Stop(server),
        ServerVerb::Start => Act::Start(server),
    }
}

/// The act of a verb on a job.
fn job_act(verb: JobVerb, id: TransactionId) -> Act
    ensures { result ≡ act_of_job verb id }
{
    match verb {
        JobVerb::Begin => Act::Begin(id),
        JobVerb::Commit => Act::Commit(id),
        JobVerb::Abort => Act::Abort(id),
    }
}

fn reading(verb: ReadVerb) -> Operation
    ensures { result ≡ reading verb }
{
    match verb {
        ReadVerb::Get => Operation::Get,
        ReadVerb::Heads => Operation::Heads,
    }
}

fn storing(verb: StoreVerb, value: u64) -> Operation
    ensures { result ≡ storing verb value }
{
    match verb {
        StoreVerb::Set => Operation::Set(value),
        StoreVerb::Add => Operation::Add(value),
        StoreVerb::Take => Operation::Take(value),
    }
}

fn changing(verb: MemberVerb, member: u8) -> Operation
    ensures { result ≡ changing verb member }
{
    let member = u64::from(member);
    match verb {
        MemberVerb::Join => Operation::Join(member),
        MemberVerb::Leave => Operation::Leave(member),
    }
}

/// The names of the clients: so few that a name's place fits a client's number.
#[derive(Clone, Copy)]
pub(crate) struct Clients<'n> {
    pub(crate) names: &'n [&'n [u8]],
    ghost few: { length names.now ≤ NAMES },
}

impl<'n> Clients<'n> {
    /// The transaction that a target means; `None` where its name is not listed.
    fn id(&self, target: Target<'_>) -> Option<TransactionId>
        ensures { MatchOption result (Unlisted (texts self.now.names.now) (Some target.entry.name.now)) (λ id. Numbered (texts self.now.names.now) id.client (Some target.entry.name.now) × (id ≡ aimed_at id.client target.entry)) }
    {
        Some(TransactionId {
            server: target.server,
            client: place_of(self.names, target.name)? as u8,
            job: target.job,
        })
    }

    /// The run of an operation; `None` where the name is not listed.
    fn run(&self, target: Target<'_>, cell: u8, operation: Operation) -> Option<Step>
        ensures { MatchOption result (Unlisted (texts self.now.names.now) (Some target.entry.name.now)) (λ s. (k : ℕ) × Numbered (texts self.now.names.now) k (Some target.entry.name.now) × (s ≡ Step.Act (Act.Run (aimed_at k target.entry) cell operation))) }
    {
        Some(Step::Act(Act::Run(self.id(target)?, u64::from(cell), operation)))
    }

    /// The step that a command means; `None` where its name is not listed.
    pub(crate) fn step(&self, command: Command<'_>) -> Option<Step>
        ensures { Means (texts self.now.names.now) command.entry result }
    {
        match command {
            Command::Order => Some(Step::Act(Act::Order)),
            Command::Cell(server, cell) => Some(Step::Cell(server, cell)),
            Command::Server(verb, server) => Some(Step::Act(server_act(verb, server))),
            Command::Job(verb, target) => Some(Step::Act(job_act(verb, self.id(target)?))),
            Command::Read(verb, target, cell) => self.run(target, cell, reading(verb)),
            Command::Store(verb, target, cell, value) => {
                self.run(target, cell, storing(verb, value))
            }
            Command::Member(verb, target, cell, member) => {
                self.run(target, cell, changing(verb, member))
            }
        }
    }
}
