//! Statements at their edges, as tables of cases (docs/statements.md).
#![tactic(auto)]

#[cfg(test)]
mod tests;
