//! Items and traces of an alphabet as texts: their readers and their printers.
#![tactic(auto)]

mod error;
mod item;
mod printer;
mod reader;

pub use error::TraceError;
pub use item::{item_bytes, item_named, shown_named};
pub use printer::{print_trace, put_item, put_items, put_line};
pub use reader::read_trace;
