//! How a session ends.

/// How a session ended by its own rule. A place is that of an entry of its log, from 1.
#[derive(Clone, Copy, PartialEq, Eq, Debug)]
pub enum Verdict {
    /// All steps were taken or the goal was reached, and each item was shown.
    Pass,
    /// What was observed at this place isn't shown there.
    Fail(u32),
    /// The other side ended the link.
    Ended,
    /// As many reads as the patience met an unfinished line.
    Stalled,
    /// A line was too long.
    Long,
}
