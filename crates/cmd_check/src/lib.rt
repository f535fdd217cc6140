//! `check`: whether an implementation conforms to its specification.
#![tactic(auto)]

mod command;
mod decision;
mod outcome;
mod report;
mod text;
mod words;

pub use command::{check, usual_report};
pub use outcome::CheckOutcome;
pub use text::lacking_text;
