//! The name of a set that a walk holds.

/// A set of a walk, by its place in the walk's list of sets from 0.
#[derive(Clone, Copy, PartialEq, Eq, PartialOrd, Ord, Hash, Debug)]
pub struct Node(pub u32);
