//! Pairs of lists of states, as a certificate of conformance holds them.
use crate::list::{Pairs, StateLists};

/// A relation between lists of states. A pair names a left list (implementation) and a right list
/// (specification) by its number from 0.
#[derive(Drop, Debug)]
pub struct Relation {
    /// The lists of implementation states.
    pub left: StateLists,
    /// The lists of specification states.
    pub right: StateLists,
    /// The pairs of list numbers.
    pub pairs: Pairs,
}
