//! What a step line says.
use crate::openings::{JobVerb, MemberVerb, ReadVerb, ServerVerb, StoreVerb};

/// The transaction that a step means: a server, a client by its name, and a job.
#[derive(Clone, Copy)]
pub struct Target<'a> {
    pub server: u8,
    pub name: &'a [u8],
    pub job: u32,
}

/// A step as it is written, by the shape of its words.
#[derive(Clone, Copy)]
pub enum Command<'a> {
    Order,
    /// Server and cell.
    Cell(u8, u8),
    Server(ServerVerb, u8),
    Job(JobVerb, Target<'a>),
    /// With the cell.
    Read(ReadVerb, Target<'a>, u8),
    /// With the cell and the value.
    Store(StoreVerb, Target<'a>, u8, u64),
    /// With the cell and the member.
    Member(MemberVerb, Target<'a>, u8, u8),
}
