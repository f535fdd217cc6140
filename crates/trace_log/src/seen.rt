//! What was seen in a session, in the terms of the alphabet.
use lts_base::{Item, Listed};

/// One place of a log, in the terms of the alphabet.
#[derive(Clone, Copy, PartialEq, Eq, Debug)]
pub enum Seen {
    /// An item of the alphabet.
    Known(Item),
    /// A text was sent that is no input.
    StrangeSent,
    /// A text was heard that is no output.
    StrangeHeard,
}

/// What was seen, in order.
pub type SeenList = Listed<Seen>;

/// What was seen in several sessions.
pub type SeenLists = Listed<SeenList>;
