//! The limits of sessions and of their logs.

/// The most steps of a session, and so the most entries of a log.
pub const MOST_STEPS: u32 = 100_000;

/// The most idle reads in a row that a session waits for.
pub const MOST_PATIENCE: u32 = 1_000;

/// The most bytes of a text that is sent or heard.
pub const MOST_TEXT_BYTES: usize = 1_024;

/// The most bytes that are left of an unfinished text.
pub const MOST_LEFT_BYTES: usize = 1_025;
