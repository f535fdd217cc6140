//! What `angelic` answers.

/// An answer of `angelic`.
#[derive(Clone, Copy, PartialEq, Eq, Debug)]
pub enum AngelicOutcome {
    /// The completed system is printed.
    Printed,
    /// The completed system would have more moves than can be printed.
    TooManyMoves {
        /// One move more than the limit.
        reached: u64,
    },
}
