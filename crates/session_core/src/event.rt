//! Events of a session, and what a session waits for.
use crate::verdict::Verdict;
use walk_core::Choice;

/// What a session is told: the answer of its chooser, or an answer of its link.
#[derive(Clone, Copy, Debug)]
pub enum Event<'a> {
    /// The chooser's answer.
    Choice(Choice),
    /// A line came.
    Line(&'a [u8]),
    /// Nothing came, and no line is unfinished.
    Idle,
    /// Nothing came after these bytes of an unfinished line.
    IdleMid(&'a [u8]),
    /// These bytes are too many for a line.
    TooLong(&'a [u8]),
    /// The other side ended after these bytes of an unfinished line.
    End(&'a [u8]),
    /// The input went out.
    Sent,
}

/// What a session waits for.
#[derive(Clone, Copy, PartialEq, Eq, Debug)]
pub enum Action {
    /// A choice.
    Ask,
    /// A look.
    Look,
    /// That this input is sent.
    Send(u32),
    /// A hearing.
    Hear,
    /// Nothing any more.
    Done(Verdict),
}
