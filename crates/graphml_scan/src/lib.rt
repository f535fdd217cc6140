//! GraphML texts in pieces: white, names, references, tags and tokens.
#![tactic(auto)]

mod attributes;
mod keyed;
mod piece;
mod reference;
mod tag;
mod tags;
mod token;

pub use attributes::{Attribute, attributes_at};
pub use keyed::Keyed;
pub use piece::{after_text, cut_text, is_same, is_white, name_at, trim, without_white};
pub use reference::{Value, bytes_of, copied, longer, made_of, reference_at, trimmed};
pub use tag::Tag;
pub use tags::{end_tag_at, start_tag_at};
pub use token::{Markup, markup_at, run_at};
