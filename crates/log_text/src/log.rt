//! Logs of sessions: what was sent and heard, and how the session ended.
use lts_base::{Divergence, Listed, Mode, Text};

/// One place of a log.
#[derive(Drop, Debug)]
pub enum Entry {
    /// This text was sent.
    Sent(Text),
    /// This text was heard.
    Heard(Text),
    /// Nothing was heard for long enough: quiescence, written `delta`.
    Quiet,
}

/// How a session ended.
#[derive(Clone, Copy, PartialEq, Eq, Debug)]
pub enum Ending {
    /// All steps were taken, and each was allowed.
    Pass,
    /// What the last entry says is not allowed.
    Fail,
    /// The other side ended the link.
    Ended,
    /// A text was begun and not finished for too long.
    Stalled,
    /// A text was too long.
    Long,
    /// The sets of the session passed their limit.
    Full,
    /// The link failed.
    Broken,
}

/// The entries of a log in order.
pub type Entries = Listed<Entry>;

/// What happened in a session.
#[derive(Drop, Debug)]
pub struct Log {
    /// The conformance that was tested.
    pub mode: Mode,
    /// How many idle reads in a row count as quiescence: 1 to `MOST_PATIENCE`.
    pub patience: u32,
    /// The most entries: 1 to `MOST_STEPS`.
    pub steps: u32,
    /// What was sent and heard.
    pub entries: Entries,
    /// What is left of a text that wasn't finished: at most `MOST_LEFT_BYTES`.
    pub left: Text,
    /// How the session ended, as the log tells it.
    pub ending: Ending,
}

/// The SHA-256 of the bytes of a specification's file (FIPS 180-4).
#[derive(Clone, Copy, PartialEq, Eq, Debug)]
pub struct Digest(pub [u8; 32]);

/// The version of a log's text, and what its head tells in that version.
#[derive(Clone, Copy, PartialEq, Eq, Debug)]
pub enum Head {
    /// Version 1, which tells nothing more.
    One,
    /// Version 2.
    Two {
        /// How cycles of internal moves were read.
        divergence: Divergence,
        /// The digest of the specification's file.
        spec: Digest,
    },
}

/// A log with its head.
#[derive(Drop, Debug)]
pub struct Named {
    /// The version, and what it tells.
    pub head: Head,
    /// The log.
    pub log: Log,
}

/// Logs in the order of their texts.
pub type Logs = Listed<Named>;
