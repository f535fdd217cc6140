//! The sizes that `demo` may be asked for.

/// The least size.
pub const LEAST_DEMO: u64 = 2;

/// The greatest size.
pub const MOST_DEMO: u64 = 4_000;
