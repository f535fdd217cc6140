//! Checks certificates: a relation that is to show that an implementation conforms, and a trace
//! that is to show that it doesn't. Nothing here is shared with the search that finds them: quiet
//! states, the sets after traces and the pairs are found anew, over moves that are looked up by
//! their actions and lists that are looked up in their order.
#![tactic(auto)]

pub mod checked;
mod index;
mod items;
mod marks;
mod moves;
mod numbers;
mod offers;
mod ordered;
mod present;
pub mod relation;
mod sets;
mod side;
pub mod trace;

pub use checked::Checked;
pub use relation::check_relation;
pub use trace::check_trace;
