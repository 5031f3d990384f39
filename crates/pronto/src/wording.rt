//! Acts and answers as text for people.
ghost use Rattle.std.specs.Prelude.{Some};
ghost use Rattle.pronto.specs.Words.{id_words, act_words, refusal_words, answer_words};

use crate::acts::{Act, Answer, TransactionId};
use crate::refusals::Refusal;
use std::error::Error;
use std::fmt;

/// `1, client 0, job 7`: server, client and job.
impl fmt::Display for TransactionId {
    ghost output = { λ t. Some (id_words t) };

    fn fmt<W: fmt::Write>(&self, f: &mut fmt::Formatter<W>) -> fmt::Result {
        let TransactionId {
            server,
            client,
            job,
        } = self;
        write!(f, "{server}, client {client}, job {job}")
    }
}

impl fmt::Display for Act {
    ghost output = { λ a. Some (act_words a) };

    fn fmt<W: fmt::Write>(&self, f: &mut fmt::Formatter<W>) -> fmt::Result {
        match self {
            Act::Begin(id) => write!(f, "begin at {id}"),
            Act::Run(id, cell, _) => write!(f, "run at {id} on cell {cell}"),
            Act::Commit(id) => write!(f, "commit at {id}"),
            Act::Abort(id) => write!(f, "abort at {id}"),
            Act::Suspect(server) => write!(f, "suspect at {server}"),
            Act::Order => write!(f, "order"),
            Act::Deliver(server) => write!(f, "deliver at {server}"),
            Act::Stop(server) => write!(f, "stop {server}"),
            Act::Start(server) => write!(f, "start {server}"),
        }
    }
}

impl fmt::Display for Answer {
    ghost output = { λ a. Some (answer_words a) };

    fn fmt<W: fmt::Write>(&self, f: &mut fmt::Formatter<W>) -> fmt::Result {
        match self {
            Answer::Done => write!(f, "ok"),
            Answer::Result(value) => write!(f, "{value}"),
            Answer::Ordered(position) => write!(f, "position {position}"),
            Answer::Delivered(position, judgement) => write!(f, "position {position}: {judgement}"),
            Answer::Refused(refusal) => write!(f, "{refusal}"),
        }
    }
}

/// `refused by 13`: the number of docs/refusals.md.
impl fmt::Display for Refusal {
    ghost output = { λ r. Some (refusal_words r) };

    fn fmt<W: fmt::Write>(&self, f: &mut fmt::Formatter<W>) -> fmt::Result {
        let number = self.number();
        write!(f, "refused by {number}")
    }
}

impl Error for Refusal {}
