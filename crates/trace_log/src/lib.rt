//! Logs of sessions against a specification: what was seen, and the verdict on it. The logs
//! themselves and their texts are those of `log_text`, which are offered here too.
#![tactic(auto)]

mod judge;
mod known;
mod seen;

pub use judge::{LogVerdict, judge_log};
pub use known::resolve;
pub use log_text::{
    Digest, Ending, Entries, Entry, Head, Log, LogError, Logs, Named, digest_of, limits, print_as,
    print_log, print_named, read_logs,
};
pub use seen::{Seen, SeenList, SeenLists};
