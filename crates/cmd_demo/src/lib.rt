//! The command `demo`: the decision on two systems of a given size, which needs no files.
#![tactic(auto)]

mod command;
pub mod limits;
mod outcome;
mod size;
mod systems;
mod words;

pub use command::demo;
pub use outcome::DemoOutcome;
