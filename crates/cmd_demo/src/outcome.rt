//! What `demo` answers.
use cmd_check::CheckOutcome;

/// An answer of `demo`.
#[derive(Drop, Debug)]
pub enum DemoOutcome {
    /// The word is no number of the sizes that there are.
    NoSize,
    /// The decision on the two systems.
    Decided(CheckOutcome),
}
