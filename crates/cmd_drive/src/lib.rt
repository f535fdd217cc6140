//! The commands `drive` and `rehearse`: a session with a program under test, over a link that is
//! dialled, or with an implementation that is simulated; and its log.
#![tactic(auto)]

mod driving;
mod files;
mod guide;
mod limits;
mod outcome;
mod rehearsal;
mod rehearse_outcome;
mod rehearse_words;
mod rehearsing;
mod session;
mod words;

pub use driving::drive;
pub use limits::{
    MOST_SESSION_MEMBERS, MOST_TICK, USUAL_PATIENCE, USUAL_SESSION_MEMBERS, USUAL_STEPS, USUAL_TICK,
};
pub use outcome::DriveOutcome;
pub use rehearse_outcome::RehearseOutcome;
pub use rehearsing::rehearse;
