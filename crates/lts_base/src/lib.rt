//! The base of every other crate: labelled transition systems over one alphabet, the list types
//! that contracts see as lists, and in `specs/` the definitions of the conformance theory.
#![tactic(auto)]

pub mod action;
mod cycles;
mod descent;
pub mod divergence;
pub mod item;
pub mod labels;
pub mod limits;
pub mod list;
pub mod memory;
mod move_number;
mod ordering;
pub mod packed;
pub mod raw;
pub mod raw_moves;
pub mod relation;
mod sorted_moves;
pub mod sorting;
pub mod system;

pub use action::{Act, Move};
pub use divergence::Divergence;
pub use item::{Item, Mode, Trace, item_order};
pub use labels::Labels;
pub use limits::MOST_LABELS;
pub use list::{Listed, Pairs, StateList, StateLists, Text, Texts};
pub use memory::Memory;
pub use packed::PackedTexts;
pub use raw::{RawLts, RawMove};
pub use raw_moves::RawMoves;
pub use relation::Relation;
pub use sorting::{Rule, SplitError, SplitSystems, split};
pub use system::{Lts, LtsError, Moves, Systems, is_quiet};
