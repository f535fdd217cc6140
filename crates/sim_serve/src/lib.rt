//! The simulated implementation: sessions that it serves to testers at an address, one after the
//! other.
#![tactic(auto)]

mod answer;
pub mod limits;
mod loading;
mod report;
mod serving;
mod session;
mod start;
mod status;
mod text;
mod words;

pub use answer::serve;
pub use limits::{MOST_SESSIONS, MOST_TURNS, TICK};
pub use start::{arguments, program};
pub use status::SimStatus;
