//! Sessions: one event at a time, by a table; choosers; and what drives a session over a link.
#![tactic(auto)]

pub mod drive;
mod entries;
pub mod event;
pub mod guided;
mod items;
pub mod laws;
mod offers;
mod output;
pub mod phase;
mod place;
pub mod scripted;
pub mod seeded;
pub mod session;
pub mod setup;
mod state;
pub mod turn;
pub mod verdict;

pub use event::{Action, Event};
pub use guided::Guided;
pub use phase::Phase;
pub use scripted::{Script, Scripted};
pub use seeded::Seeded;
pub use session::{Session, SessionError};
pub use setup::Setup;
pub use turn::{DriveError, turn_one};
pub use verdict::Verdict;
