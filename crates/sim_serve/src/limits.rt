//! What the sessions are bounded by.

/// The most sessions that may be asked for.
pub const MOST_SESSIONS: u32 = 64;

/// The most turns of a session.
pub const MOST_TURNS: u32 = 1_000_000;

/// How long a read of a tester's stream may wait, in milliseconds.
pub const TICK: u32 = 20;
