//! Scripts of a chooser as texts: the choices that a session's chooser is to make, one on each line.
#![tactic(auto)]

mod choice;
mod error;
mod reader;

pub use choice::choice_named;
pub use error::ScriptError;
pub use reader::read_script;
