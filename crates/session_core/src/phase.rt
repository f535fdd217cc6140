//! What a session waits for.
use crate::verdict::Verdict;

/// The phase of a session.
#[derive(Clone, Copy, PartialEq, Eq, Debug)]
pub enum Phase {
    /// A choice.
    Ask,
    /// A look before this input is sent.
    Look(u32),
    /// That this input is sent.
    Send(u32),
    /// A line, or quiescence.
    Hear,
    /// Nothing any more.
    Done(Verdict),
}
