//! Aldebaran files: their reader and their printer.
#![tactic(auto)]

mod error;
mod finish;
mod form;
mod header;
mod labels;
mod line;
mod load;
mod parts;
mod pieces;
mod plain;
mod printer;
mod progress;
mod reader;
mod unfinished;

pub use error::AutError;
pub use load::{AutLoad, read_aut};
pub use parts::RawParts;
pub use printer::print;
pub use reader::AutReader;
