//! Decides ioco and uioco between two walks: the first violation by length and then by labels,
//! conformance with the list of reached pairs, or the exact place at which a limit cut the search.
#![tactic(auto)]

pub mod answer;
pub mod decide;
mod look;
mod relation;
mod search;
mod table;

pub use answer::{Answer, Verdict, What, verdict_of};
