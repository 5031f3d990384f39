//! Writing what a step answers.
ghost use Rattle.std.specs.Prelude.{◌≡◌, ◌+◌, ◌≤◌, ◌++◌, length, codes, decimal};
ghost use Rattle.broadcast.specs.Bags.{nth};
ghost use Rattle.ensemble.specs.Whole.{state};
ghost use Rattle.run_file.specs.Files.{names_of};
ghost use Rattle.stepping.specs.Buffers.{HasRoom, Wrote};
ghost use Rattle.stepping.specs.Answers.{cell_of_busy, refusal_text, told_text, owner_text, judgement_text, answer_text, longest_answer};
ghost use Rattle.stepping.specs.Owners.{told_owner};

use crate::owners::Owner;
use crate::putting::LineWriter;
use bank::{DatabaseBank, ReplicaBank};
use broadcast::Broadcast;
use ensemble::Ensemble;
use journal::Judgement;
use message::Message;
use pronto::{Answer, Refusal, ServerFault};
use run_file::RunFile;

/// The cell at which a database is busy, where that is why.
fn busy_cell(refusal: Refusal) -> Option<u64>
    ensures { result ≡ cell_of_busy refusal }
{
    match refusal {
        Refusal::Server(_, ServerFault::Busy(cell)) => Some(cell),
        _ => None,
    }
}

/// Whose job the message at a position is; `None` where there is no transaction.
pub(crate) fn owner_at<'f, B: Broadcast, K: DatabaseBank>(
    file: &RunFile<'f>,
    ensemble: &Ensemble<B, K>,
    position: u64,
) -> Option<Owner<'f>>
    ensures { told_owner result ≡ owner_text (names_of file.now) (nth (state B.Broadcast K.ReplicaBank K.DatabaseBank.own ensemble.now).log position) }
{
    match ensemble.message(position) {
        Ok(Message::Transaction(transaction)) => Some(Owner {
            name: file.name(transaction.client),
            job: transaction.job,
        }),
        _ => None,
    }
}

impl<'a> LineWriter<'a> {
    /// `no R`, or `no 13 CELL` where a database is busy.
    fn refusal(&mut self, refusal: Refusal)
        requires { HasRoom self.old 26 }
        ensures { Wrote self.old (refusal_text refusal) self.new }
    {
        self.text(b"no ");
        self.number(refusal.number());
        if let Some(cell) = busy_cell(refusal) {
            self.text(b" ");
            self.number(cell);
        }
    }

    /// `ok N`.
    fn told(&mut self, number: u64)
        requires { HasRoom self.old 23 }
        ensures text { Wrote self.old (told_text number) self.new }
        ensures short { self.new.at ≤ self.old.at + 23 }
    {
        self.text(b"ok ");
        self.number(number);
    }

    /// `NAME JOB`.
    fn job(&mut self, name: &[u8], job: u32)
        requires name { length name.now ≤ 8 }
        requires room { HasRoom self.old 19 }
        ensures text { Wrote self.old (name.now ++ codes " " ++ decimal job) self.new }
        ensures short { self.new.at ≤ self.old.at + 19 }
    {
        self.text(name);
        self.text(b" ");
        self.number(u64::from(job));
    }

    /// `NAME JOB`, or nothing where there is no owner.
    fn owner(&mut self, owner: Option<Owner<'_>>)
        requires { HasRoom self.old 19 }
        ensures text { Wrote self.old (told_owner owner.entry) self.new }
        ensures short { self.new.at ≤ self.old.at + 19 }
    {
        if let Some(Owner { name, job }) = owner {
            self.job(name, job);
        }
    }

    /// `ok P` and the judgement of the message at that position, which has this owner.
    fn delivered(&mut self, position: u64, judgement: Judgement, owner: Option<Owner<'_>>)
        requires { HasRoom self.old 70 }
        ensures { Wrote self.old (told_text position ++ judgement_text (told_owner owner.entry) judgement) self.new }
    {
        self.told(position);
        match judgement {
            Judgement::Accepted => self.text(b" epoch"),
            Judgement::Stale => self.text(b" stale"),
            Judgement::Committed => {
                self.text(b" commit ");
                self.owner(owner);
            }
            Judgement::Late => {
                self.text(b" late ");
                self.owner(owner);
            }
            Judgement::Again(earlier) => {
                self.text(b" again ");
                self.owner(owner);
                self.text(b" ");
                self.number(earlier);
            }
        }
    }

    /// Writes an answer.
    pub(crate) fn answer<B: Broadcast, K: DatabaseBank>(
        &mut self,
        file: &RunFile<'_>,
        ensemble: &Ensemble<B, K>,
        answer: Answer,
    )
        requires { HasRoom self.old (longest_answer answer) }
        ensures { Wrote self.old (answer_text (names_of file.now) (state B.Broadcast K.ReplicaBank K.DatabaseBank.own ensemble.now).log answer) self.new }
    {
        match answer {
            Answer::Done => self.text(b"ok"),
            Answer::Result(number) | Answer::Ordered(number) => self.told(number),
            Answer::Delivered(position, judgement) => {
                let owner = owner_at(file, ensemble, position);
                self.delivered(position, judgement, owner);
            }
            Answer::Refused(refusal) => self.refusal(refusal),
        }
    }
}
