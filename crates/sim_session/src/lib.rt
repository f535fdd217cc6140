//! Sessions over a simulated implementation: their items are a trace of it, and where one fails the
//! implementation doesn't conform.
#![tactic(auto)]

pub mod laws;
mod rehearsal;
mod sure_sim;

pub use rehearsal::rehearse;
