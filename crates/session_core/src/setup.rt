//! What a session is made with.
use lts_base::{Mode, Trace};

/// The conformance that is tested, and the limits of a session.
#[derive(Drop, Debug)]
pub struct Setup {
    /// The conformance relation.
    pub mode: Mode,
    /// How many idle reads in a row count as quiescence: 1 to `MOST_PATIENCE`.
    pub patience: u32,
    /// The most items: 1 to `MOST_STEPS`.
    pub steps: u32,
    /// The items after which the session has passed before it has so many, if there is a goal.
    pub goal: Option<Trace>,
}
