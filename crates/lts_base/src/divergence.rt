//! How systems with cycles of internal moves are read.

/// What a cycle of internal moves means: an implementation on it may go on for ever and show
/// nothing (Tretmans, "Model Based Testing with Labelled Transition Systems", divergence).
#[derive(Clone, Copy, PartialEq, Eq, PartialOrd, Ord, Hash, Debug)]
pub enum Divergence {
    /// Nothing: systems with such cycles are to be refused.
    Refuse,
    /// A state on such a cycle is quiet, beside the quiet states without internal moves.
    Quiet,
}
