//! What a check of a certificate answers.
use lts_base::Item;

/// What a check of a certificate answers. Pairs and places count from 1.
#[derive(Clone, Copy, PartialEq, Eq, Drop, Debug)]
pub enum Checked {
    /// The relation is valid; the trace and the item are a violation.
    Accepted,
    /// No pair of the relation holds the two opening sets.
    Start,
    /// The left list of this pair shows an item that its right list doesn't.
    Outputs(u32),
    /// The right list of this pair allows the item, and the two lists that it leads to are in no
    /// pair, though the left one isn't empty.
    NotClosed(u32, Item),
    /// The trace up to this place is the first that the specification doesn't allow.
    NotAllowed(u32),
    /// The implementation doesn't show the item after the trace.
    NotShown,
    /// The specification shows the item after the trace.
    Allowed,
}
