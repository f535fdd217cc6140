//! Sets of states after traces, one step at a time, and what such sets show and allow.
#![tactic(auto)]

pub mod bits;
pub mod compared;
pub mod masks;
pub mod moves;
pub mod offers;
pub mod rows;
pub mod search;
pub mod set;
pub mod step;
pub mod taus;

pub use bits::first_missing;
pub use masks::{mark_set, masks_of, row_allows, row_label_from, row_shows, row_width};
pub use moves::label_from;
pub use offers::{allowed_by, shown_by};
pub use rows::Rows;
pub use search::Search;
pub use set::{
    StateSet, allows, found_set, only_state, opening, opening_with, post, post_with, shows,
};
pub use step::{find_next, next_states, opening_states};
pub use taus::Taus;
