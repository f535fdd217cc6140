//! A simulated implementation: a system that a generator of words walks, as a link.
#![tactic(auto)]

pub mod among;
mod detour;
mod draw;
mod finds;
mod going;
mod hearing;
pub mod laws;
pub mod serving;
pub mod session;
pub mod sim_link;
mod taking;

pub use among::Among;
pub use serving::{Served, ServedEnd, ServedTurn};
pub use session::serve_session;
pub use sim_link::SimLink;
