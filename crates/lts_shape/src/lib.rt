//! The shape of a system: cycles of moves with Tau, inputs that a state can't take, and the
//! completion by loops.
#![tactic(auto)]

pub mod completion;
pub mod cycle;
mod groups;
pub mod inputs;
mod peel;
mod reached;

pub use completion::{ShapeError, angelic};
pub use cycle::tau_cycle;
pub use inputs::missing_input;
