//! What is told of the logs of a file against a system: their verdicts, whether their heads tell
//! of another specification, and their texts in version 2.
#![tactic(auto)]

mod heads;
mod migrated;
mod replayed;
mod verdicts;

pub use heads::{OtherHead, other_head};
pub use migrated::{MigrateOutcome, Migration, migrate_logs};
pub use replayed::{Replay, ReplayOutcome, replay_logs};
