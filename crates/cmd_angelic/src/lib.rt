//! The command `angelic`: the system of a file, completed by loops so that it is input-enabled,
//! and printed as an Aldebaran file.
#![tactic(auto)]

mod command;
mod outcome;
mod words;

pub use command::angelic;
pub use outcome::AngelicOutcome;
