//! What `check` answers.
use conf_decide::What;
use lts_base::{Item, Text, Trace};

/// An answer of `check`.
#[derive(Drop, Debug)]
pub enum CheckOutcome {
    /// The implementation conforms to the specification, and so many pairs of sets were reached.
    Conforms {
        /// The number of pairs.
        pairs: u32,
    },
    /// The first violation.
    Violates {
        /// The least violating trace.
        trace: Trace,
        /// The least item that violates after it.
        shown: Item,
    },
    /// A limit was passed before the decision was made.
    Undecided {
        /// The limit.
        what: What,
        /// How far it was passed.
        reached: u64,
        /// The length of the least trace at which it was passed.
        depth: u32,
    },
    /// The implementation isn't input-enabled, though that is asked for.
    NotEnabled {
        /// The name of its file.
        name: Text,
        /// The least state that ends some trace and lacks an input.
        state: u32,
        /// The least input that it lacks, by the number of the label.
        label: u32,
    },
}
