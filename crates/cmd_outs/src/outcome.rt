//! What `outs` answers.

/// An answer of `outs`.
#[derive(Clone, Copy, PartialEq, Eq, Debug)]
pub enum OutsOutcome {
    /// What the system shows and allows after the trace is printed.
    Printed,
    /// The system doesn't allow the trace.
    Absent {
        /// The first place, counted from 1, at which a prefix ends that isn't allowed.
        place: u32,
    },
}
