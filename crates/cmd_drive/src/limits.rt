//! The numbers that the words of a session may give, and those that hold where they give none.

/// The most members that the sets of a session's walk may be asked to have together.
pub const MOST_SESSION_MEMBERS: u64 = 16_777_216;

/// The members that they may have unless a number is given.
pub const USUAL_SESSION_MEMBERS: u64 = 1_048_576;

/// The items that a session has at most unless a number is given.
pub const USUAL_STEPS: u32 = 100;

/// How many idle reads in a row count as quiescence unless a number is given.
pub const USUAL_PATIENCE: u32 = 5;

/// The longest tick that a link may be asked for, in milliseconds.
pub const MOST_TICK: u32 = 10_000;

/// The tick of a link unless a number is given, in milliseconds.
pub const USUAL_TICK: u32 = 100;
