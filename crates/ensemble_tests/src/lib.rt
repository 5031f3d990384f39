//! Ensembles over mixed banks, on examples (docs/acts.md).
#![tactic(auto)]

#[cfg(test)]
mod tests;
