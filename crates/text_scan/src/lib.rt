//! Pieces of text: decimals, blanks, cuts at a byte, lines, and files with a label on each line.
#![tactic(auto)]

mod blank;
mod cut;
mod error;
mod line;
mod listing;
mod number;

pub use blank::trim;
pub use cut::{cut_at, cut_at_last, next_line};
pub use error::LinesError;
pub use line::{split_line, without_cr};
pub use listing::{is_plain, read_list};
pub use number::{MOST_DIGITS, decimal};
