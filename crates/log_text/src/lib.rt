//! Logs of sessions as texts: their printer and their reader.
#![tactic(auto)]

mod digest;
mod entry;
mod error;
mod head;
pub mod limits;
mod line;
mod log;
mod number;
mod piece;
mod printer;
mod reader;
mod stage;

pub use digest::{digest_from, digest_of};
pub use error::LogError;
pub use log::{Digest, Ending, Entries, Entry, Head, Log, Logs, Named};
pub use printer::{print_as, print_log, print_named};
pub use reader::read_logs;
