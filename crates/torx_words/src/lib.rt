//! The words after a command, by any table of options: which are accepted, what they give, and why
//! others are refused. No command is known here.
#![tactic(auto)]

pub mod asked;
mod checks;
pub mod form;
pub mod given;
pub mod kind;
pub mod options;
mod parse;
mod values;

pub use asked::Sorting;
pub use form::{Form, NamedOption, ValueKind};
pub use given::{Given, read_words};
pub use kind::{UsageKind, WordsError};
pub use options::{DIVERGENCE, INPUTS, MARKS, UIOCO};
