//! The suspension automaton of a system, made as far as it is asked for: walks from set to set, and
//! what chooses the inputs of a walk.
#![tactic(auto)]

pub mod choice;
pub mod edges;
mod interned;
mod keyed;
pub mod lazy;
mod marks;
pub mod node;
mod packed;
pub mod plain;
pub mod steps;
pub mod walk;

pub use choice::{Choice, Choose};
pub use edges::MOST_EDGES;
pub use lazy::LazyWalk;
pub use node::Node;
pub use plain::PlainWalk;
pub use steps::Steps;
pub use walk::{Walk, WalkError};
