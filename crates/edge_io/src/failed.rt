//! The one refusal that the outside may give.

/// The outside refused a call; the count of faults of the object that was called rose.
#[derive(Clone, Copy, Debug, PartialEq, Eq)]
pub struct Failed;
