//! What every command of the program stands on: files loaded by kind, systems over one alphabet,
//! refusals with their texts, and what a command is.
#![tactic(auto)]

mod cycles;
mod digest_tap;
mod error_text;
mod load;
mod raw;
mod refusal;
mod report;
mod sources;
mod systems;
mod text;

pub use load::{bad_file, load_cert, load_goal, load_logs, load_script, load_trace, loaded_name};
pub use refusal::{FileError, Refusal, Stop, words_stop};
pub use report::Report;
pub use sources::Sources;
pub use systems::{
    DigestedPair, DigestedSystem, OneSystem, TwoSystems, digested_pair, digested_system,
    one_system, two_systems,
};
pub use text::{one_line, put_number, put_states, refusal_text, usage_text};
