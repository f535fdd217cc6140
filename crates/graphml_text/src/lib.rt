//! GraphML files: their reader.
#![tactic(auto)]

mod edge;
mod element;
mod ends;
mod error;
mod front;
mod graph;
mod ids;
pub mod limits;
mod machine;
mod moves;
mod places;
mod reader;
mod role;
mod step;

pub use error::GraphError;
pub use reader::read_graphml;
