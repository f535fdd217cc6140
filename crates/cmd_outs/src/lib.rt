//! The command `outs`: what a system shows and allows after a trace.
#![tactic(auto)]

mod command;
mod follow;
mod offers;
mod outcome;
mod taken;
mod text;
mod words;

pub use command::outs;
pub use outcome::OutsOutcome;
