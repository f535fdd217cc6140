//! What a move carries, and the move itself.

/// What a move of a system carries: nothing to be seen from outside, or a label by its number.
#[derive(Clone, Copy, PartialEq, Eq, PartialOrd, Ord, Hash, Debug)]
pub enum Act {
    /// The internal action.
    Tau,
    /// A visible label, by its number in the alphabet from 0.
    Label(u32),
}

/// A move of a system: the state that it leaves, what it carries, the state that it leads to.
#[derive(Clone, Copy, PartialEq, Eq, PartialOrd, Ord, Hash, Debug)]
pub struct Move {
    /// The state that the move leaves.
    pub from: u32,
    /// What the move carries.
    pub act: Act,
    /// The state that the move leads to.
    pub to: u32,
}
