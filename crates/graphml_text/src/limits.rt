//! The limits of the form.

/// The most elements that stand in one another; the root is the first.
pub const MOST_DEPTH: usize = 64;
