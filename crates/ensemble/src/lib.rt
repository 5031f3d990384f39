//! An ensemble of servers over any databases and any ordered broadcast (docs/acts.md).
#![tactic(auto)]

pub mod ensembles;

pub use ensembles::Ensemble;
pub use ensembles::making::Unmade;
