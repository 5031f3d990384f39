//! Worked cases of the definitions, as one table that the checker computes (docs/statements.md, docs/databases.md, docs/judging.md).
#![tactic(auto)]

ghost use Rattle.marked_cases.specs.Cases.{CasesHold};

/// Every case of the table gives what it should.
pub fn cases_hold()
    ensures { CasesHold }
{}
