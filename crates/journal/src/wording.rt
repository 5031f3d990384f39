//! Judgements as text.
ghost use Rattle.std.specs.Prelude.{Some};
ghost use Rattle.journal.specs.Words.{judgement_words};

use crate::verdicts::Judgement;
use std::fmt;

impl fmt::Display for Judgement {
    ghost output = { λ j. Some (judgement_words j) };

    fn fmt<W: fmt::Write>(&self, f: &mut fmt::Formatter<W>) -> fmt::Result {
        match *self {
            Judgement::Accepted => write!(f, "epoch"),
            Judgement::Stale => write!(f, "stale"),
            Judgement::Committed => write!(f, "commit"),
            Judgement::Late => write!(f, "late"),
            Judgement::Again(earlier) => write!(f, "again {earlier}"),
        }
    }
}
