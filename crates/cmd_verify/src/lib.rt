//! The command `verify`: whether two systems are as a certificate states. The check shares no code
//! with the decision that `check` makes, so an auditor need not trust it.
#![tactic(auto)]

mod command;
mod outcome;
mod text;
mod words;

pub use command::verify;
pub use outcome::VerifyOutcome;
