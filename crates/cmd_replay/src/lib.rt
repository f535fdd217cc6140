//! The commands `replay` and `migrate`: the verdicts on the logs of a file, and the same logs in
//! version 2, which names the specification by its digest.
#![tactic(auto)]

mod files;
mod migration;
mod replaying;
mod words;

pub use log_report::{MigrateOutcome, ReplayOutcome};
pub use migration::migrate;
pub use replaying::replay;
