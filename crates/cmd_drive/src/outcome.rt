//! How a session that was driven ended.
use session_core::Verdict;

/// How a session ended.
#[derive(Clone, Copy, PartialEq, Eq, Debug)]
pub enum DriveOutcome {
    /// By its own rule.
    Ended {
        /// With this verdict.
        verdict: Verdict,
    },
    /// The sets of the session would have had more members than they may have.
    Full {
        /// How many.
        reached: u64,
    },
    /// The dial failed, or the link did.
    Broken,
}
